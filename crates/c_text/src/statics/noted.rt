//! The initialisers that stand in the items of a file, wherever they do (C11 6.9).
ghost use Rattle.std.specs.Prelude.{◌≡◌, ◌+◌, ◌++◌, IfOk, OnOk};
ghost use Rattle.std.specs.List.{flat_map};
ghost use Rattle.c_machine.specs.Statics.{nodes_of, sets_of};
ghost use Rattle.c_machine.specs.Trees.{nodes_in};

use crate::statics::notes::note_item;
use crate::statics::parts::item::push_in_item;
use crate::statics::set::StaticSet;
use crate::statics::walk::walk;
use c_steps::Stack;
use cbase::{Item, List, NoMemory};
use std::alloc::Global;

/// Notes the initialisers that stand in an item, and counts its parts.
fn note_in_item<'a>(
    alloc: Global,
    sets: &mut List<StaticSet<'a>>,
    item: &'a Item,
) -> Result<u64, NoMemory>
    ensures sets { OnOk result (sets.new ≡ sets.old ++ sets_of item.now) }
    ensures parts { IfOk result (λ count. count ≡ nodes_of item.now) }
{
    note_item(sets, item)?;
    let mut nodes = Stack::new(alloc);
    push_in_item(&mut nodes, item)?;
    walk(sets, &mut nodes)
}

/// A sum. Where it would not fit, memory is wanting.
fn sum(one: u64, other: u64) -> Result<u64, NoMemory>
    ensures { IfOk result (λ sum. sum ≡ one + other) }
{
    match one.checked_add(other) {
        None => Err(NoMemory),
        Some(sum) => Ok(sum),
    }
}

/// Notes the initialisers that stand in items, and counts their parts.
pub fn note_in_items<'a>(
    alloc: Global,
    sets: &mut List<StaticSet<'a>>,
    items: &'a [Item],
) -> Result<u64, NoMemory>
    ensures sets { OnOk result (sets.new ≡ sets.old ++ flat_map sets_of items.now) }
    ensures parts { IfOk result (λ count. count ≡ nodes_in items.now) }
{
    let mut count = 0;
    for item in items {
        count = sum(count, note_in_item(alloc, sets, item)?)?;
    }
    Ok(count)
}
