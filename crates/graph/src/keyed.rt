ghost use Rattle.std.specs.Prelude.{◌≡◌, ◌+◌, ◌<◌, [], ◌∷◌, ◌++◌, length, slice_get, IfOk, OnOk, OnErr};
ghost use Rattle.std.specs.Option.{option_copied};
ghost use Rattle.graph.specs.Slots.{held_at, AreApart, AreHeld};

use cbase::NoMemory;
use slab::Slab;
use std::alloc::Global;
use std::marker::Model;

/// Objects or values of a graph, under the keys 0, 1 and so on.
///
/// A slab holds them, under keys of its own, which are kept in the order of the graph's. So it does not matter in
/// which order the slab hands its keys out. Contracts see the list of the items, where the key of an item is its
/// place.
#[derive(Drop)]
pub struct Keyed<T> {
    slots: Slab<T>,
    keys: Vec<usize>,
}

impl<T> Model for Keyed<T> {
    ghost use Rattle.std.specs.Prelude.{List};
    ghost use Rattle.std.specs.Coded.{coded_list};
    ghost use Rattle.graph.specs.Slots.{held_at, AreApart, AreHeld};

    ghost Value = { List T };

    ghost coded = { coded_list T.code };

    ghost view = { λ k. held_at k.slots.slots k.keys.items };

    ghost use Rattle.std.specs.Prelude.{◌<◌, length};

    ghost invariant = { λ k. AreHeld k.slots.slots k.keys.items × AreApart k.keys.items × (length k.keys.items < 4294967296) };
}

impl<T> Keyed<T> {
    /// No item. It takes no memory.
    pub fn new(alloc: Global) -> Keyed<T>
        ensures { result ≡ [] }
    {
        Keyed {
            slots: Slab::new(alloc),
            keys: Vec::new(alloc),
        }
    }

    /// How many items there are. Each key is a `u32`.
    #[tactic(auto, using(crate::proofs::InSlots::length_held))]
    pub fn len(&self) -> u32
        ensures { result ≡ length self.now }
    {
        self.keys.len() as u32
    }

    /// The item with this key. None exactly where the key is no place of an item. It takes no memory.
    pub fn get(&self, key: u32) -> Option<&T>
        ensures { option_copied result ≡ slice_get self.now key }
    {
        find(&self.slots, self.keys.as_slice(), key as usize)
    }
}

impl<T: Drop> Keyed<T> {
    /// Puts an item behind the last one. Where memory is wanting nothing changes, and the item is given up.
    pub fn push(&mut self, item: T) -> Result<(), NoMemory>
        ensures ok { OnOk result (self.new ≡ self.old ++ item ∷ []) }
        ensures err { OnErr result (self.new ≡ self.old) }
    {
        if self.keys.len() >= MOST_KEYS {
            return Err(NoMemory);
        }
        put(&mut self.slots, &mut self.keys, item)?;
        Ok(())
    }

    /// Makes room for so many items more, and for no others.
    pub(crate) fn reserve(&mut self, count: usize) -> Result<(), NoMemory>
        ensures { self.new ≡ self.old }
    {
        make_room(&mut self.slots, &mut self.keys, count)
    }

    /// The items, in the order of their keys. None is copied.
    #[tactic(auto, using(crate::proofs::InSlots::length_held))]
    pub(crate) fn into_items(self, alloc: Global) -> Result<Vec<T>, NoMemory>
        ensures items { IfOk result (λ items. items.items ≡ self) }
        ensures few { IfOk result (λ items. length items.items < 4294967296) }
    {
        let Keyed { mut slots, keys } = self;
        let taken = take_all(alloc, &mut slots, keys.as_slice());
        drop(slots);
        taken
    }
}

/// How many keys there are: one is left out, so that the number of items is a `u32`.
pub(crate) const MOST_KEYS: usize = 4_294_967_295;

/// Makes room for so many items and their keys.
fn make_room<T>(slots: &mut Slab<T>, keys: &mut Vec<usize>, count: usize) -> Result<(), NoMemory>
    ensures slots { slots.new.slots ≡ slots.old.slots }
    ensures keys { keys.new.items ≡ keys.old.items }
{
    slots.reserve_exact(count)?;
    keys.reserve_exact(count)?;
    Ok(())
}

/// What the slots hold at a key of this place.
#[tactic(auto, using(crate::proofs::InSlots::held_get, crate::proofs::InSlots::held_past))]
fn find<'a, T>(slots: &'a Slab<T>, keys: &[usize], place: usize) -> Option<&'a T>
    requires { AreHeld slots.now.slots keys.now }
    ensures { option_copied result ≡ slice_get (held_at slots.now.slots keys.now) place }
{
    if place < keys.len() {
        slots.get(keys[place])
    } else {
        None
    }
}

/// Puts an item into the slots, and its key behind the others.
#[tactic(auto, using(crate::proofs::InSlots::held_put, crate::proofs::InSlots::are_held_put, crate::proofs::InSlots::are_apart_put))]
fn put<T: Drop>(slots: &mut Slab<T>, keys: &mut Vec<usize>, item: T) -> Result<(), NoMemory>
    requires held { AreHeld slots.old.slots keys.old.items }
    requires apart { AreApart keys.old.items }
    ensures ok { OnOk result (held_at slots.new.slots keys.new.items ≡ held_at slots.old.slots keys.old.items ++ item ∷ []) }
    ensures longer { OnOk result (length keys.new.items ≡ length keys.old.items + 1) }
    ensures err { OnErr result (slots.new.slots ≡ slots.old.slots) }
    ensures err_keys { OnErr result (keys.new.items ≡ keys.old.items) }
    ensures held { AreHeld slots.new.slots keys.new.items }
    ensures apart { AreApart keys.new.items }
{
    slots.reserve(1)?;
    keys.push(slots.vacant_key())?;
    slots.insert_reserved(item);
    Ok(())
}

/// Takes what the slots hold at these keys, in their order.
#[tactic(auto, using(crate::proofs::InSlots::taken_first, crate::proofs::InSlots::taken_rest))]
fn take_all<T: Drop>(alloc: Global, slots: &mut Slab<T>, keys: &[usize]) -> Result<Vec<T>, NoMemory>
    requires held { AreHeld slots.old.slots keys.now }
    requires apart { AreApart keys.now }
    ensures { IfOk result (λ items. items.items ≡ held_at slots.old.slots keys.now) }
{
    let mut items = Vec::with_capacity(alloc, keys.len())?;
    for key in keys {
        match slots.try_remove(*key) {
            Some(item) => items.push(item)?,
            None => unreachable!(),
        }
    }
    Ok(items)
}
