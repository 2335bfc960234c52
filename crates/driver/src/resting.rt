//! The faults of entries that are not followed, where the budget is spent.
ghost use Rattle.std.specs.Prelude.{◌≡◌, ◌+◌, ◌<◌, true, Some, length, slice_get, IfOk, OnOk};
ghost use Rattle.flow.specs.Exclusive.{IsExclusive};
ghost use Rattle.flow.specs.Marked.{AreOuts};
ghost use Rattle.flow.specs.Valid.{IsFlow};
ghost use Rattle.driver.specs.Looping.{Onward, leads, IsPostAt, IsHalted, IsResting, OnRest, IsEnded, RestsSo};

use crate::expanding::{is_kept, leads, out_of, point_of, post_at};
use crate::noting::note_kinds;
use crate::verdict::Limits;
use crate::work::Work;
use cbase::{NoMemory, Stop};
use flow::{Flow, FlowEdge, Out};
use graph::Post;
use std::alloc::Global;

/// Tells of the faults of a post.
fn tell_post(
    flow: &Flow,
    limits: &Limits,
    work: &mut Work,
    at: usize,
    which: usize,
    point: u32,
    number: usize,
    edge: &FlowEdge,
    post: &Post,
) -> Result<(), NoMemory>
    requires so_far { OnRest flow.now limits.now work.old at which point number }
    requires stands { slice_get flow.now.edges number ≡ Some edge.now }
    requires leads { leads point edge.now ≡ true }
    requires post { IsPostAt flow.now work.old.trail which edge.now post.now }
    ensures { OnOk result (OnRest flow.now limits.now work.new at which point (number + 1)) }
{
    if which >= 4_000_000_000 || number >= 4_000_000_000 {
        return Err(NoMemory);
    }
    note_kinds(
        &mut work.warnings,
        post.kinds.as_slice(),
        edge.place,
        which as u32,
        number as u32,
    )?;
    Ok(())
}

/// Tells of the faults of the post along an edge that leads from the entry. False where its graph is large.
#[tactic(auto, using(crate::proofs::Rested::rest_entry, crate::proofs::Rested::rest_ended))]
fn tell_along(
    alloc: Global,
    flow: &Flow,
    limits: &Limits,
    work: &mut Work,
    at: usize,
    which: usize,
    point: u32,
    number: usize,
    edge: &FlowEdge,
) -> Result<bool, NoMemory>
    requires flow { IsFlow flow.now }
    requires so_far { OnRest flow.now limits.now work.old at which point number }
    requires stands { slice_get flow.now.edges number ≡ Some edge.now }
    requires leads { leads point edge.now ≡ true }
    ensures { IfOk result (λ fits. Onward fits (OnRest flow.now limits.now work.new at which point (number + 1)) (IsEnded flow.now limits.now work.new.trail which)) }
{
    match post_at(
        alloc,
        flow,
        limits,
        work.trail.as_slice(),
        which,
        point,
        number,
        edge,
    ) {
        Err(Stop::NoMemory) => Err(NoMemory),
        Err(Stop::Large) => Ok(false),
        Ok(post) => {
            tell_post(flow, limits, work, at, which, point, number, edge, &post)?;
            Ok(true)
        }
    }
}

/// The same for any edge.
#[tactic(auto, using(crate::proofs::Rested::on_rest_skip, crate::proofs::Followed::stands_there))]
fn tell_any(
    alloc: Global,
    flow: &Flow,
    limits: &Limits,
    work: &mut Work,
    at: usize,
    which: usize,
    point: u32,
    number: usize,
) -> Result<bool, NoMemory>
    requires flow { IsFlow flow.now }
    requires so_far { OnRest flow.now limits.now work.old at which point number }
    ensures { IfOk result (λ fits. Onward fits (OnRest flow.now limits.now work.new at which point (number + 1)) (IsEnded flow.now limits.now work.new.trail which)) }
{
    match flow.edges.as_slice().get(number) {
        None => Err(NoMemory),
        Some(edge) => {
            if !leads(point, edge) {
                return Ok(true);
            }
            tell_along(alloc, flow, limits, work, at, which, point, number, edge)
        }
    }
}

/// Tells of the faults of the posts along all edges out of the entry's point.
fn tell_all(
    alloc: Global,
    flow: &Flow,
    limits: &Limits,
    outs: &[Out],
    work: &mut Work,
    at: usize,
    which: usize,
    point: u32,
) -> Result<bool, NoMemory>
    requires flow { IsFlow flow.now }
    requires exclusive { IsExclusive flow.now }
    requires outs { AreOuts flow.now.edges outs.now }
    requires so_far { OnRest flow.now limits.now work.old at which point 0 }
    ensures { IfOk result (λ fits. Onward fits (OnRest flow.now limits.now work.new at which point (length flow.now.edges)) (IsEnded flow.now limits.now work.new.trail which)) }
{
    match out_of(outs, point) {
        Out::Nothing => Ok(true),
        Out::One(number) => {
            if !tell_any(alloc, flow, limits, work, at, which, point, number)? {
                return Ok(false);
            }
            Ok(true)
        }
        Out::Two(number, second) => {
            if !tell_any(alloc, flow, limits, work, at, which, point, number)? {
                return Ok(false);
            }
            if !tell_any(alloc, flow, limits, work, at, which, point, second)? {
                return Ok(false);
            }
            Ok(true)
        }
        Out::More => unreachable!(),
    }
}

/// The same for one entry, if it is kept.
#[tactic(auto, using(crate::proofs::Rested::on_rest_first, crate::proofs::Rested::resting_next, crate::proofs::Rested::resting_skip))]
fn tell_entry(
    alloc: Global,
    flow: &Flow,
    limits: &Limits,
    outs: &[Out],
    work: &mut Work,
    at: usize,
    which: usize,
) -> Result<bool, NoMemory>
    requires flow { IsFlow flow.now }
    requires exclusive { IsExclusive flow.now }
    requires outs { AreOuts flow.now.edges outs.now }
    requires so_far { IsResting flow.now limits.now work.old at which }
    requires within { which < length work.old.trail }
    ensures { IfOk result (λ fits. Onward fits (IsResting flow.now limits.now work.new at (which + 1)) (IsEnded flow.now limits.now work.new.trail which)) }
{
    if !is_kept(work.trail.as_slice(), which) {
        return Ok(true);
    }
    let point = point_of(work.trail.as_slice(), which);
    if !tell_all(alloc, flow, limits, outs, work, at, which, point)? {
        return Ok(false);
    }
    Ok(true)
}

/// Tells of the faults of all entries from one on. The number of an entry whose graph is large, if one is met.
#[tactic(auto, using(crate::proofs::Rested::resting_first, crate::proofs::Rested::resting_last))]
pub(crate) fn tell_rest(
    alloc: Global,
    flow: &Flow,
    limits: &Limits,
    outs: &[Out],
    work: &mut Work,
    at: usize,
) -> Result<Option<u32>, NoMemory>
    requires flow { IsFlow flow.now }
    requires exclusive { IsExclusive flow.now }
    requires outs { AreOuts flow.now.edges outs.now }
    requires so_far { IsHalted flow.now limits.now work.old at }
    ensures { IfOk result (λ large. RestsSo flow.now limits.now work.new at large) }
{
    for which in at..4_000_000_000usize {
        if which >= work.trail.len() {
            return Ok(None);
        }
        if !tell_entry(alloc, flow, limits, outs, work, at, which)? {
            return Ok(Some(which as u32));
        }
    }
    Err(NoMemory)
}
