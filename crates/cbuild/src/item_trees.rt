ghost use Rattle.std.specs.Prelude.{◌≡◌, ℕ, Err, Some, None, IfOk, IfSome, IfNone};
ghost use Rattle.cbase.specs.declared.tree.item.Item.{Item};
ghost use Rattle.cbuild.specs.ItemsMade.{item_alone, item_made, counted_item, nothing_made};
ghost use Rattle.cevents.specs.Building.{built_all};

use crate::builder::Builder;
use crate::unbuilt::Unbuilt;
use cbase::{Item, NoMemory};
use cevents::Event;
use cgrammar::Terminal;
use std::alloc::Global;

/// An item of a file that is made of events (C11 6.9).
#[derive(Drop)]
pub struct BuiltItem {
    /// The item.
    pub item: Item,
    /// How many expressions end up to its end, those before it with them.
    pub count: u32,
}

/// The item of a file that the events make of a row, alone and of nothing, where so many expressions end before it.
///
/// `Wrong` is for events that make anything else, or nothing.
#[tactic(auto, using(crate::proofs::ItemsAlone::made_alone, crate::proofs::ItemsAlone::is_made, crate::proofs::ItemsAlone::is_not_made))]
pub fn build_item(
    alloc: Global,
    row: &[Terminal<'_>],
    events: &[Event],
    before: u32,
) -> Result<BuiltItem, Unbuilt>
    ensures item { IfOk result (λ built. built_all row.now events.now (nothing_made before) ≡ item_made built.item built.count) }
    ensures wrong { result ≡ Err Unbuilt.Wrong → (item : Item) (count : ℕ) → built_all row.now events.now (nothing_made before) ≡ item_made item count → ⊥ }
{
    match item_alone(alloc, row, events, before) {
        Err(_) => Err(Unbuilt::NoMemory),
        Ok(None) => Err(Unbuilt::Wrong),
        Ok(Some(built)) => Ok(built),
    }
}

/// The item, or nothing where the events make no item that stands alone.
fn item_alone(
    alloc: Global,
    row: &[Terminal<'_>],
    events: &[Event],
    before: u32,
) -> Result<Option<BuiltItem>, NoMemory>
    ensures some { IfOk result (λ found. IfSome found (λ built. item_alone (built_all row.now events.now (nothing_made before)) ≡ Some (built.item, built.count))) }
    ensures none { IfOk result (λ found. IfNone found (item_alone (built_all row.now events.now (nothing_made before)) ≡ None)) }
{
    let mut builder = Builder::beginning(alloc, before);
    if !builder.build_all(row, events)? {
        return Ok(None);
    }
    let count = builder.count;
    Ok(counted(builder.only_item(), count))
}

/// An item with how many expressions end up to its end.
fn counted(item: Option<Item>, count: u32) -> Option<BuiltItem>
    ensures some { IfSome result (λ built. counted_item count item ≡ Some (built.item, built.count)) }
    ensures none { IfNone result (counted_item count item ≡ None) }
{
    match item {
        None => None,
        Some(item) => Some(BuiltItem { item, count }),
    }
}
