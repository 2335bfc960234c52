use cbase::{Boxed, List, NoMemory, Text};
use std::alloc::Global;
use std::test::Fail;

/// Two bytes in a list.
fn two_bytes(alloc: Global) -> Result<List<u8>, NoMemory> {
    let mut list = List::new(alloc);
    list.push(7u8)?;
    list.push(9)?;
    Ok(list)
}

/// Whether a list shows and gives back what was pushed.
fn is_given_back(alloc: Global) -> Result<bool, NoMemory> {
    let list = two_bytes(alloc)?;
    let seen = list.as_slice() == [7, 9].as_slice();
    Ok(list.into_vec().as_slice() == [7, 9].as_slice() && seen)
}

/// A line in two pieces.
fn two_pieces(alloc: Global) -> Result<Text, NoMemory> {
    let mut text = Text::from_slice(alloc, b"t.c")?;
    text.extend(b": safe\n")?;
    Ok(text)
}

/// Whether a text is its bytes.
fn is_its_bytes(alloc: Global) -> Result<bool, NoMemory> {
    let text = two_pieces(alloc)?;
    Ok(text.as_slice() == b"t.c: safe\n".as_slice())
}

/// A tree of any width and depth, to see that both containers stand in types that hold themselves.
#[derive(Drop)]
enum Tree {
    Leaf(u8),
    Branches(List<Tree>),
    Twin {
        left: Boxed<Tree>,
        right: Boxed<Tree>,
    },
}

/// The sum of the leaves.
fn sum(tree: &Tree) -> u64 {
    match tree {
        Tree::Leaf(number) => u64::from(*number),
        Tree::Branches(branches) => {
            let mut total: u64 = 0;
            for branch in branches.as_slice() {
                total = total.saturating_add(sum(branch));
            }
            total
        }
        Tree::Twin { left, right } => sum(left.get()).saturating_add(sum(right.get())),
    }
}

/// A tree with the leaves 1, 2 and 4.
fn three_leaves(alloc: Global) -> Result<Tree, NoMemory> {
    let mut branches = List::new(alloc);
    branches.push(Tree::Leaf(1))?;
    branches.push(Tree::Leaf(2))?;
    let left = Boxed::new(alloc, Tree::Branches(branches))?;
    let right = Boxed::new(alloc, Tree::Leaf(4))?;
    Ok(Tree::Twin { left, right })
}

/// The sum of a tree that holds itself in lists and boxes.
fn sum_of_a_tree(alloc: Global) -> Result<u64, NoMemory> {
    Ok(sum(&three_leaves(alloc)?))
}

#[test]
fn lists_texts_and_boxes_hold_what_they_were_given(rt: HostRuntime) -> Result<(), Fail> {
    let list = is_given_back(rt.alloc())?;
    let text = is_its_bytes(rt.alloc())?;
    let total = sum_of_a_tree(rt.alloc())?;
    assert_eq!(rt; (list, text, total), (true, true, 7));
    Ok(())
}
