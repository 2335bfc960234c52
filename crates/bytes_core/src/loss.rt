ghost use Rattle.std.specs.Prelude.{◌≡◌, ◌+◌, ◌<◌, ◌&&◌, ◌^◌, ◌≤◌, Bool, List as Items, ℕ, [], drop, take, length, replicate, false, slice_get, IfOk, IfSome, IsTrue, OnOk, Option, Some, None};
ghost use Rattle.std.specs.Option.{option_to_list};
ghost use Rattle.bytes_core.specs.Indexed.{heads, IsIndexed};
ghost use Rattle.bytes_core.specs.Living.{place_of, places_of};
ghost use Rattle.bytes_core.specs.Loss.{is_lost};
ghost use Rattle.bytes_core.specs.Release.{is_heap};
ghost use Rattle.bytes_core.specs.Marking.{front_target, targets, block_targets, place_targets, marking, is_open, with_mark, with_marks, AreMarks, is_heap_block, some_unmarked};

use crate::access::block_at;
use crate::block::Block;
use crate::byte::Byte;
use crate::index::Index;
use crate::live::{Live, place_of};
use crate::release::is_heap;
use crate::value::are_parts;
use cbase::NoMemory;
use std::alloc::Global;

/// The bytes from a place on, eight of them at most.
fn eight_from(bytes: &[Byte], at: usize) -> &[Byte]
    requires { at ≤ length bytes.now }
    ensures bytes { result.now ≡ take 8 (drop at bytes.now) }
    ensures few { length result.now ≤ 8 }
{
    let rest = &bytes[at..];
    &rest[..rest.len().min(8)]
}

/// The block to which the whole pointer leads that begins at this place, if one does.
fn target_at(bytes: &[Byte], at: usize) -> Option<u32>
    requires { at ≤ length bytes.now }
    ensures { result ≡ front_target (drop at bytes.now) }
{
    match bytes.get(at) {
        None => None,
        Some(Byte::Num(_)) => None,
        Some(Byte::Part { block, offset, .. }) => {
            if !are_parts(*block, *offset, 0, eight_from(bytes, at)) {
                return None;
            }
            Some(*block)
        }
    }
}

/// Whether there is a place of that number that is not marked.
fn is_open(marks: &[bool], place: usize) -> bool
    ensures open { result ≡ is_open marks.now place }
    ensures stands { IsTrue result → place < length marks.now }
{
    match marks.get(place) {
        None => false,
        Some(mark) => !*mark,
    }
}

/// Marks a place that is not marked yet, and puts it among those that are still to be looked through.
#[tactic(auto, unfolding(crate::specs::Marking::with_mark))]
fn mark(marks: &mut Vec<bool>, waiting: &mut Vec<usize>, place: usize) -> Result<(), NoMemory>
    ensures { OnOk result (marking marks.new.items waiting.new.items ≡ with_mark (marking marks.old.items waiting.old.items) place) }
{
    if !is_open(marks.as_slice(), place) {
        return Ok(());
    }
    marks[place] = true;
    waiting.push(place)?;
    Ok(())
}

/// Marks the place of a block, if it lives.
fn mark_block(
    live: &Live,
    marks: &mut Vec<bool>,
    waiting: &mut Vec<usize>,
    number: u32,
) -> Result<(), NoMemory>
    ensures { OnOk result (marking marks.new.items waiting.new.items
        ≡ with_marks (marking marks.old.items waiting.old.items) (option_to_list (place_of live.now.numbers.items live.now.places.items number))) }
{
    match place_of(live, number as usize) {
        None => Ok(()),
        Some(place) => mark(marks, waiting, place),
    }
}

/// Marks the places of those of some blocks that live, one behind the other.
#[tactic(auto, using(crate::proofs::Marked::marked_before))]
fn mark_all(
    live: &Live,
    marks: &mut Vec<bool>,
    waiting: &mut Vec<usize>,
    numbers: &[u32],
) -> Result<(), NoMemory>
    ensures { OnOk result (marking marks.new.items waiting.new.items
        ≡ with_marks (marking marks.old.items waiting.old.items) (places_of live.now.numbers.items live.now.places.items numbers.now)) }
{
    for number in numbers {
        mark_block(live, marks, waiting, *number)?;
    }
    Ok(())
}

/// Marks the place of the block to which the whole pointer leads that begins at this place of the bytes.
fn mark_target(
    live: &Live,
    marks: &mut Vec<bool>,
    waiting: &mut Vec<usize>,
    bytes: &[Byte],
    at: usize,
) -> Result<(), NoMemory>
    requires { at < length bytes.now }
    ensures { OnOk result (
        with_marks (marking marks.new.items waiting.new.items) (places_of live.now.numbers.items live.now.places.items (targets (drop (at + 1) bytes.now)))
        ≡ with_marks (marking marks.old.items waiting.old.items) (places_of live.now.numbers.items live.now.places.items (targets (drop at bytes.now)))) }
{
    match target_at(bytes, at) {
        None => Ok(()),
        Some(target) => mark_block(live, marks, waiting, target),
    }
}

/// Marks the places of the live blocks to which whole pointers in the bytes lead.
fn mark_targets(
    live: &Live,
    marks: &mut Vec<bool>,
    waiting: &mut Vec<usize>,
    bytes: &[Byte],
) -> Result<(), NoMemory>
    ensures { OnOk result (marking marks.new.items waiting.new.items
        ≡ with_marks (marking marks.old.items waiting.old.items) (places_of live.now.numbers.items live.now.places.items (targets bytes.now))) }
{
    for at in 0..bytes.len() {
        mark_target(live, marks, waiting, bytes, at)?;
    }
    Ok(())
}

/// Marks the places of the live blocks to which a block leads on: a dead one leads to none.
fn look_through(
    blocks: &[Block],
    live: &Live,
    marks: &mut Vec<bool>,
    waiting: &mut Vec<usize>,
    number: usize,
) -> Result<(), NoMemory>
    ensures { OnOk result (marking marks.new.items waiting.new.items
        ≡ with_marks (marking marks.old.items waiting.old.items) (places_of live.now.numbers.items live.now.places.items (block_targets (slice_get blocks.now number)))) }
{
    match block_at(blocks, number) {
        None => Ok(()),
        Some(block) => {
            if block.live {
                return mark_targets(live, marks, waiting, block.bytes.as_slice());
            }
            Ok(())
        }
    }
}

/// Marks the places to which a place leads on.
fn look_through_place(
    blocks: &[Block],
    live: &Live,
    marks: &mut Vec<bool>,
    waiting: &mut Vec<usize>,
    place: usize,
) -> Result<(), NoMemory>
    ensures { OnOk result (marking marks.new.items waiting.new.items
        ≡ with_marks (marking marks.old.items waiting.old.items) (place_targets blocks.now live.now.numbers.items live.now.places.items place)) }
{
    match live.numbers.get(place) {
        None => Ok(()),
        Some(number) => look_through(blocks, live, marks, waiting, *number),
    }
}

/// Marks all places to which ways from the marked ones lead: each is looked through once.
fn follow(
    blocks: &[Block],
    live: &Live,
    marks: &mut Vec<bool>,
    waiting: &mut Vec<usize>,
) -> Result<(), NoMemory>
    ensures { (count : ℕ) (first : Items ℕ) →
        AreMarks count first (place_targets blocks.now live.now.numbers.items live.now.places.items) (marking marks.old.items waiting.old.items) →
        OnOk result (AreMarks count first (place_targets blocks.now live.now.numbers.items live.now.places.items) (marking marks.new.items [])) }
{
    while let Some(place) = waiting.pop() {
        look_through_place(blocks, live, marks, waiting, place)?;
    }
    Ok(())
}

/// Whether there is a block of that number, and of the heap.
fn is_heap_block(blocks: &[Block], number: usize) -> bool
    ensures { result ≡ is_heap_block (slice_get blocks.now number) }
{
    match block_at(blocks, number) {
        None => false,
        Some(block) => is_heap(block.kind),
    }
}

/// Whether the block of a number is of the heap, and its place not marked.
fn is_unmarked(blocks: &[Block], number: usize, marks: &[bool], place: usize) -> bool
    ensures { result ≡ (is_heap_block (slice_get blocks.now number) && is_open marks.now place) }
{
    if !is_heap_block(blocks, number) {
        return false;
    }
    is_open(marks, place)
}

/// Whether some live heap block's place is not marked.
fn some_unmarked(blocks: &[Block], numbers: &[usize], marks: &[bool]) -> bool
    ensures { result ≡ some_unmarked blocks.now marks.now 0 numbers.now }
{
    for (place, number) in numbers.iter().enumerate() {
        if is_unmarked(blocks, *number, marks, place) {
            return true;
        }
    }
    false
}

/// Whether some live heap block is reached from none of the roots. Where no block of the heap lives it takes no time for
/// the blocks, and else time for the live ones, their bytes and the roots.
pub(crate) fn some_lost(
    alloc: Global,
    blocks: &[Block],
    index: &Index,
    roots: &[u32],
) -> Result<bool, NoMemory>
    requires { IsIndexed (heads blocks.now) index.now.live.numbers.items index.now.live.places.items index.now.bases index.now.heap }
    ensures { IfOk result (λ lost. lost ≡ is_lost blocks.now roots.now) }
{
    if index.heap == 0 {
        return Ok(false);
    }
    let live = &index.live;
    let numbers = live.numbers.as_slice();
    let mut marks: Vec<bool> = vec![in alloc; false; numbers.len()]?;
    let mut waiting: Vec<usize> = Vec::new(alloc);
    mark_all(live, &mut marks, &mut waiting, roots)?;
    follow(blocks, live, &mut marks, &mut waiting)?;
    Ok(some_unmarked(blocks, numbers, marks.as_slice()))
}
