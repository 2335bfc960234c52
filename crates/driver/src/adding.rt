//! A new entry.
ghost use Rattle.std.specs.Prelude.{◌≡◌, ◌<◌, ◌∷◌, [], length, true, false, IfOk, IfSome, OnOk};
ghost use Rattle.trail.specs.Work.{candidate};
ghost use Rattle.driver.specs.Driven.{IsPlaced};
ghost use Rattle.driver.specs.Peers.{print_in};
ghost use Rattle.driver.specs.Growing.{IsBooked, IsPutIn, IsUnkept, LooksSo, HasLast, MakesSo, Adds};

use crate::looking::{is_covered, mark_in, slot_of};
use crate::masking::put_mask;
use crate::verdict::Limits;
use crate::widening::{cause_of, change_of, made};
use crate::work::{Change, Put, Work};
use cbase::NoMemory;
use cover::{constant_cells, fingerprint, live_count};
use flow::Flow;
use graph::Graph;
use std::alloc::Global;
use trail::{Cause, Entry};

#[tactic(auto, using(crate::proofs::Booked::unkept_there))]
/// Puts in an entry that is not kept.
fn add_unkept(
    budget: u32,
    work: &mut Work,
    point: u32,
    cause: Cause,
    graph: Graph,
) -> Result<(), NoMemory>
    requires booked { IsBooked budget work.old }
    ensures { OnOk result (IsUnkept budget work.old work.new (candidate point cause graph false ∷ [])) }
{
    work.earlier.push(0)?;
    work.counts.push(live_count(&graph))?;
    work.trail.push(Entry {
        point,
        cause,
        graph,
        kept: false,
    })?;
    Ok(())
}

/// A fingerprint; 0 where there is none.
fn print_in(print: Option<u64>) -> u64
    requires within { IfSome print (λ number. number < 2147483647) }
    ensures is { result ≡ print_in print }
    ensures within { result < 2147483647 }
{
    match print {
        None => 0,
        Some(number) => number,
    }
}

#[tactic(auto, using(crate::proofs::Booked::kept_there))]
/// Puts in an entry that is kept.
fn add_kept(
    alloc: Global,
    budget: u32,
    work: &mut Work,
    point: u32,
    cause: Cause,
    graph: Graph,
) -> Result<(), NoMemory>
    requires booked { IsBooked budget work.old }
    requires within { point < length work.old.masks.newest.items }
    requires room { work.old.kept < budget }
    ensures { OnOk result (IsPutIn budget work.old work.new (candidate point cause graph true ∷ [])) }
{
    let number = work.trail.len();
    if number >= 4_000_000_000 {
        return Err(NoMemory);
    }
    let cells = constant_cells(alloc, &graph)?;
    let live = live_count(&graph);
    let print = print_in(fingerprint(&graph, cells.as_slice()));
    let slot = slot_of(work.slots.len(), point, live, print);
    put_mask(&mut work.masks, point, cells)?;
    let mark = mark_in(work.slots.as_slice(), slot);
    work.earlier.push(mark)?;
    work.counts.push(live)?;
    work.slots[slot] = number + 1;
    work.trail.push(Entry {
        point,
        cause,
        graph,
        kept: true,
    })?;
    work.kept += 1;
    Ok(())
}

/// Looks up a graph, and puts in its entry: it is kept where no kept one at its point covers it and nothing is to be made of it.
#[tactic(auto, using(crate::proofs::Looked::covered_now, crate::proofs::Looked::kept_now, crate::proofs::Looked::opens_now, crate::proofs::Looked::beyond_now))]
fn look(
    alloc: Global,
    flow: &Flow,
    limits: &Limits,
    work: &mut Work,
    point: u32,
    cause: Cause,
    graph: Graph,
) -> Result<Put, NoMemory>
    requires booked { IsBooked limits.now.budget work.old }
    requires within { point < length work.old.masks.newest.items }
    ensures { IfOk result (λ put. LooksSo flow.now limits.now work.old work.new point cause graph put) }
{
    if is_covered(alloc, work, point, &graph)? {
        add_unkept(limits.budget, work, point, cause, graph)?;
        return Ok(Put::Done);
    }
    if let Some(change) = change_of(alloc, flow, limits.int_limit, point, &graph)? {
        add_unkept(limits.budget, work, point, cause, graph)?;
        return Ok(Put::Open { change });
    }
    if work.kept >= limits.budget {
        work.next = Some(Entry {
            point,
            cause,
            graph,
            kept: true,
        });
        return Ok(Put::Full);
    }
    add_kept(alloc, limits.budget, work, point, cause, graph)?;
    Ok(Put::Done)
}

/// Looks up what is made of the last entry.
fn look_on(
    alloc: Global,
    flow: &Flow,
    limits: &Limits,
    work: &mut Work,
    point: u32,
    change: Change,
) -> Result<Put, NoMemory>
    requires last { HasLast flow.now limits.now work.old point change }
    ensures { IfOk result (λ put. MakesSo flow.now limits.now work.old work.new point change put) }
{
    let count = work.trail.len();
    if count == 0 || count >= 4_000_000_000 {
        return Err(NoMemory);
    }
    let from = count - 1;
    let made = match work.trail.as_slice().get(from) {
        None => return Err(NoMemory),
        Some(entry) => made(alloc, flow, limits.int_limit, point, &entry.graph, change)?,
    };
    let cause = cause_of(change, from as u32);
    look(alloc, flow, limits, work, point, cause, made)
}

/// Puts in an entry, and at a loop head what is made of it, one behind the other, until one is kept or covered. False where one would be kept beyond the
/// budget; it is the next one then.
pub(crate) fn add(
    alloc: Global,
    flow: &Flow,
    limits: &Limits,
    work: &mut Work,
    point: u32,
    cause: Cause,
    graph: Graph,
) -> Result<bool, NoMemory>
    requires booked { IsBooked limits.now.budget work.old }
    requires within { point < length work.old.masks.newest.items }
    requires placed { IsPlaced flow.now point graph }
    ensures { IfOk result (λ fits. Adds flow.now limits.now work.old work.new point cause graph fits) }
{
    let mut put = look(alloc, flow, limits, work, point, cause, graph)?;
    for _ in 0..4_000_000_000usize {
        match put {
            Put::Done => return Ok(true),
            Put::Full => return Ok(false),
            Put::Open { change } => put = look_on(alloc, flow, limits, work, point, change)?,
        }
    }
    Err(NoMemory)
}
