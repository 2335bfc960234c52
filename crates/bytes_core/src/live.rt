ghost use Rattle.std.specs.Prelude.{◌≡◌, ◌+◌, ◌<◌, ◌++◌, ◌∷◌, Bool, List as Items, [], length, set, false, true, slice_get, if◌then◌else◌, OnOk, Some, vec_len, vec_capacity};
ghost use Rattle.bytes_core.specs.Living.{AreLive, place_of};

use cbase::NoMemory;
use std::alloc::Global;

/// Which blocks of a memory live: as many numbers as live ones, so that what goes over these goes over no dead one.
#[derive(Drop)]
pub(crate) struct Live {
    /// The numbers of the live blocks, in any order.
    pub(crate) numbers: Vec<usize>,
    /// For each block a number: the place of its own among `numbers`, if it lives.
    pub(crate) places: Vec<usize>,
}

/// Nothing lives, as there is no block.
pub(crate) fn none_live(alloc: Global) -> Live
    ensures numbers { result.numbers.items ≡ [] }
    ensures places { result.places.items ≡ [] }
{
    Live {
        numbers: Vec::new(alloc),
        places: Vec::new(alloc),
    }
}

/// The place of a block among the live ones, if it lives.
pub(crate) fn place_of(live: &Live, number: usize) -> Option<usize>
    ensures { result ≡ place_of live.now.numbers.items live.now.places.items number }
{
    let place = *live.places.get(number)?;
    let found = *live.numbers.get(place)?;
    if found != number {
        return None;
    }
    Some(place)
}

/// Makes room for one more block. It takes memory, and changes nothing else.
pub(crate) fn make_room(live: &mut Live) -> Result<(), NoMemory>
    ensures numbers { live.new.numbers.items ≡ live.old.numbers.items }
    ensures places { live.new.places.items ≡ live.old.places.items }
    ensures numbers_room { OnOk result (vec_len live.new.numbers < vec_capacity live.new.numbers) }
    ensures places_room { OnOk result (vec_len live.new.places < vec_capacity live.new.places) }
{
    live.numbers.reserve(1)?;
    live.places.reserve(1)?;
    Ok(())
}

/// Puts an item behind others, where there is room for it.
fn put(items: &mut Vec<usize>, item: usize)
    requires { vec_len items.old < vec_capacity items.old }
    ensures { items.new.items ≡ items.old.items ++ item ∷ [] }
{
    match items.push(item) {
        Ok(()) => {}
        Err(_) => unreachable!(),
    }
}

/// Puts an item in place of another, if there is one at this place.
fn replace(items: &mut Vec<usize>, at: usize, item: usize)
    ensures { items.new.items ≡ set items.old.items at item }
{
    if at < items.len() {
        items[at] = item;
    }
}

/// Counts a block in that stands behind the others, where there is room for it. It takes no memory.
pub(crate) fn count_in(live: &mut Live, lives: bool)
    requires numbers { vec_len live.old.numbers < vec_capacity live.old.numbers }
    requires places { vec_len live.old.places < vec_capacity live.old.places }
    ensures numbers { live.new.numbers.items ≡ (if lives then live.old.numbers.items ++ length live.old.places.items ∷ [] else live.old.numbers.items) }
    ensures places { live.new.places.items ≡ live.old.places.items ++ length live.old.numbers.items ∷ [] }
{
    let place = live.numbers.len();
    if lives {
        put(&mut live.numbers, live.places.len());
    }
    put(&mut live.places, place);
}

/// Counts a block out that ends, if it lives: the last of the live ones takes its place. It takes no memory.
pub(crate) fn count_out(live: &mut Live, number: usize)
    ensures { (alive : Items Bool) → AreLive alive live.old.numbers.items live.old.places.items →
        AreLive (set alive number false) live.new.numbers.items live.new.places.items }
{
    let Some(place) = place_of(live, number) else {
        return;
    };
    let Some(last) = live.numbers.pop() else {
        return;
    };
    replace(&mut live.numbers, place, last);
    replace(&mut live.places, last, place);
}
