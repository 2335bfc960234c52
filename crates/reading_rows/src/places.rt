//! The places in the tree of an item that are not those of its expressions, statements and names: where conditions, values and
//! blocks in expressions end, and where names of types, parameters and members stand.
use crate::nodes::{Node, Parts, parts, parts_of_item};
use crate::printing::push_row;
use cbase::{Item, NoMemory};
use std::alloc::Global;

/// Puts parts in front of what is still to be gone through.
fn follow<'a>(todo: &mut Vec<Node<'a>>, parts: &Parts<'a>) -> Result<(), NoMemory> {
    for node in parts.iter().rev() {
        todo.push(*node)?;
    }
    Ok(())
}

/// Shows a place, or goes through a part of a tree.
fn step<'a>(todo: &mut Vec<Node<'a>>, node: Node<'a>, shown: &mut String) -> Result<(), NoMemory> {
    match node {
        Node::Done => Ok(()),
        Node::Found(what, place) => push_row(what, &[place.line, place.column], shown),
        _ => follow(todo, &parts(node)),
    }
}

/// Each such place in the order of the text, as what stands there with its line and column.
///
/// `if`, `while`, `do` and `for` are the `)` of these, `first` and `second` the `;` of a `for`, `value` the token behind a value of an
/// initialiser, `block` the `}` of a block in an expression; `tag`, `parameter`, `member`, `designator` and `step` are names. What
/// stands in sizes of arrays, widths of fields and values of enumerators is not looked at.
pub fn places(alloc: Global, item: &Item, shown: &mut String) -> Result<(), NoMemory> {
    let mut todo = Vec::new(alloc);
    let told = walk(item, &mut todo, shown);
    drop(todo);
    told
}

/// Shows them, where nothing else is to be gone through.
fn walk<'a>(item: &'a Item, todo: &mut Vec<Node<'a>>, shown: &mut String) -> Result<(), NoMemory> {
    follow(todo, &parts_of_item(item))?;
    for _ in 0..u32::MAX {
        match todo.pop() {
            None => return Ok(()),
            Some(node) => step(todo, node, shown)?,
        }
    }
    Ok(())
}
