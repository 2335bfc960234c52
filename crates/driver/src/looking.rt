//! Whether a kept entry at a point covers a graph.
ghost use Rattle.std.specs.Prelude.{◌≡◌, ◌<◌, length, IfOk, slice_index_or};
ghost use Rattle.driver.specs.Driven.{is_small};
ghost use Rattle.driver.specs.Peers.{slot_of, ArePeers, AreCounted, IsCountOf, LooksUp, LooksInSlot, LooksByMask, TellsCover, TellsPeer};

use crate::expanding::point_of;
use crate::work::Work;
use cbase::NoMemory;
use cover::{covers, fingerprint, live_count, may_cover};
use graph::Graph;
use std::alloc::Global;
use trail::Entry;

/// A mark; 0 where there is none.
pub(crate) fn mark_in(marks: &[usize], at: usize) -> usize
    ensures { result ≡ slice_index_or marks.now at 0 }
{
    match marks.get(at) {
        None => 0,
        Some(mark) => *mark,
    }
}

/// Whether a graph has fewer objects than graphs may have, by far.
pub(crate) fn is_small(graph: &Graph) -> bool
    ensures { result ≡ is_small graph.now }
{
    graph.object_count() < 1_000_000_000
}

/// A count; 0 where there is none.
fn count_in(counts: &[u32], at: usize) -> u32
    ensures { result ≡ slice_index_or counts.now at 0 }
{
    match counts.get(at) {
        None => 0,
        Some(count) => *count,
    }
}

#[tactic(auto, using(crate::proofs::Counted::out_of_sight))]
/// Whether the entry of this number covers the graph. One that may not, as far as is seen at once, is passed over.
fn covers_at(alloc: Global, trail: &[Entry], number: usize, graph: &Graph) -> Result<bool, NoMemory>
    ensures { IfOk result (λ covers. TellsCover trail.now number graph.now covers) }
{
    match trail.get(number) {
        None => Ok(false),
        Some(entry) => {
            if !may_cover(&entry.graph, graph) {
                return Ok(false);
            }
            covers(alloc, &entry.graph, graph)
        }
    }
}

#[tactic(auto, using(crate::proofs::Counted::other_count_there))]
/// The same, where so many objects live in the graph. An entry of another number of live objects is passed over.
fn entry_covers(
    alloc: Global,
    work: &Work,
    number: usize,
    graph: &Graph,
    live: u32,
) -> Result<bool, NoMemory>
    requires counted { AreCounted work.now.trail work.now.counts.items }
    requires live { IsCountOf graph.now live }
    ensures { IfOk result (λ covers. TellsCover work.now.trail number graph.now covers) }
{
    if count_in(work.counts.as_slice(), number) != live {
        return Ok(false);
    }
    covers_at(alloc, work.trail.as_slice(), number, graph)
}

/// The slot among so many of a point, a count of live objects and a fingerprint.
pub(crate) fn slot_of(count: usize, point: u32, live: u32, print: u64) -> usize
    requires some { 0 < count }
    requires within { print < 2147483647 }
    ensures is { result ≡ slot_of count point live print }
    ensures within { result < count }
{
    let number = print + point as u64 * 7_919 + live as u64 * 104_729;
    (number % count as u64) as usize
}

/// Whether the entry of this number stands at the point and covers the graph.
#[tactic(auto, using(crate::proofs::Slotted::other_point, crate::proofs::Slotted::same_point))]
fn peer_covers(
    alloc: Global,
    work: &Work,
    number: usize,
    point: u32,
    graph: &Graph,
    live: u32,
) -> Result<bool, NoMemory>
    requires counted { AreCounted work.now.trail work.now.counts.items }
    requires live { IsCountOf graph.now live }
    ensures { IfOk result (λ covers. TellsPeer work.now.trail point number graph.now covers) }
{
    if point_of(work.trail.as_slice(), number) != point {
        return Ok(false);
    }
    let covers = entry_covers(alloc, work, number, graph, live)?;
    Ok(covers)
}

/// Whether a kept entry of a slot stands at the point and covers the graph. The one that was kept last is tried first.
fn is_covered_in(
    alloc: Global,
    work: &Work,
    slot: usize,
    point: u32,
    graph: &Graph,
    live: u32,
) -> Result<bool, NoMemory>
    requires peers { ArePeers work.now.trail work.now.masks work.now.slots.items work.now.earlier.items }
    requires counted { AreCounted work.now.trail work.now.counts.items }
    requires live { IsCountOf graph.now live }
    ensures { IfOk result (λ found. LooksInSlot work.now.trail (length work.now.slots.items) slot point graph.now found) }
{
    let mut mark = mark_in(work.slots.as_slice(), slot);
    while mark != 0 {
        let number = mark - 1;
        if peer_covers(alloc, work, number, point, graph, live)? {
            return Ok(true);
        }
        mark = mark_in(work.earlier.as_slice(), number);
    }
    Ok(false)
}

#[tactic(auto, using(crate::proofs::Slotted::no_mask, crate::proofs::Slotted::no_print, crate::proofs::Slotted::mask_told))]
/// Whether a kept entry at the point with the cells of a mask covers the graph. All of these that may stand in one slot.
fn is_covered_by_mask(
    alloc: Global,
    work: &Work,
    which: usize,
    point: u32,
    graph: &Graph,
    live: u32,
) -> Result<bool, NoMemory>
    requires peers { ArePeers work.now.trail work.now.masks work.now.slots.items work.now.earlier.items }
    requires counted { AreCounted work.now.trail work.now.counts.items }
    requires live { IsCountOf graph.now live }
    ensures { IfOk result (λ found. LooksByMask work.now.trail work.now.masks.items point graph.now which found) }
{
    match work.masks.items.as_slice().get(which) {
        None => Ok(false),
        Some(mask) => match fingerprint(graph, mask.cells.as_slice()) {
            None => Ok(false),
            Some(print) => {
                let slot = slot_of(work.slots.len(), point, live, print);
                let found = is_covered_in(alloc, work, slot, point, graph, live)?;
                Ok(found)
            }
        },
    }
}

/// Whether a kept entry at the point covers the graph. For each mask of the point there is one slot to be looked in.
pub(crate) fn is_covered(
    alloc: Global,
    work: &Work,
    point: u32,
    graph: &Graph,
) -> Result<bool, NoMemory>
    requires peers { ArePeers work.now.trail work.now.masks work.now.slots.items work.now.earlier.items }
    requires counted { AreCounted work.now.trail work.now.counts.items }
    ensures { IfOk result (λ found. LooksUp work.now.trail point graph.now found) }
{
    let live = live_count(graph);
    let mut mark = mark_in(work.masks.newest.as_slice(), point as usize);
    while mark != 0 {
        let which = mark - 1;
        if is_covered_by_mask(alloc, work, which, point, graph, live)? {
            return Ok(true);
        }
        mark = mark_in(work.masks.before.as_slice(), which);
    }
    Ok(false)
}
