//! What stands directly in an item of a file (C11 6.9).
ghost use Rattle.std.specs.Prelude.{◌≡◌, ◌∷◌, ◌++◌, map, OnOk};
ghost use Rattle.c_machine.specs.Statics.{AStmt, SomeWords, in_item, in_name};

use crate::statics::node::Nodes;
use crate::statics::parts::list::push_stmts;
use crate::statics::parts::name::{push_in_decl, push_in_name};
use crate::statics::parts::single::push_words;
use cbase::{Declared, Item, NoMemory, Stmt, TypeSpec};

/// What stands directly in an item.
pub fn push_in_item<'a>(nodes: &mut Nodes<'a>, item: &'a Item) -> Result<(), NoMemory>
    ensures { OnOk result (nodes.new ≡ in_item item.now ++ nodes.old) }
{
    match item {
        Item::Empty => Ok(()),
        Item::Declare(decl) => push_in_decl(nodes, decl),
        Item::Function {
            spec,
            head,
            body,
            ..
        } => push_in_function(nodes, spec, head, body.as_slice()),
    }
}

/// What stands directly in a function (C11 6.9.1).
fn push_in_function<'a>(
    nodes: &mut Nodes<'a>,
    spec: &'a TypeSpec,
    head: &'a Declared,
    body: &'a [Stmt],
) -> Result<(), NoMemory>
    ensures { OnOk result (nodes.new ≡ SomeWords spec.now ∷ in_name head.now ++ (map AStmt body.now ++ nodes.old)) }
{
    push_stmts(nodes, body)?;
    push_in_name(nodes, head)?;
    push_words(nodes, spec)
}
