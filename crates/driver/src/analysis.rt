//! The fixed point.
ghost use Rattle.std.specs.Prelude.{◌≡◌, ◌<◌, ◌≤◌, length, IfOk};
ghost use Rattle.flow.specs.Exclusive.{IsExclusive};
ghost use Rattle.flow.specs.InRange.{entry_of};
ghost use Rattle.flow.specs.Marked.{AreOuts};
ghost use Rattle.flow.specs.Valid.{IsFlow};
ghost use Rattle.transfer.specs.Fitting.{FitsAt};
ghost use Rattle.transfer.specs.Start.{IsStartGraph};
ghost use Rattle.trail.specs.Seen.{HasNoCalls};
ghost use Rattle.trail.specs.Theorems.{HaveOffsets};
ghost use Rattle.trail.specs.Trail.{AreHonest};
ghost use Rattle.driver.specs.Driven.{driven, widening};
ghost use Rattle.driver.specs.Looping.{IsNothingKnown, Worked, IsHalted, IsResting, IsEnded};
ghost use Rattle.driver.specs.Ordering.{AreInOrder};
ghost use Rattle.driver.specs.Verdicts.{IsVerdict};

use crate::adding::add;
use crate::calls::first_call;
use crate::chains::chained;
use crate::expanding::turn;
use crate::looking::is_small;
use crate::mask::Masks;
use crate::ordering::in_order;
use crate::resting::tell_rest;
use crate::verdict::{Limits, Verdict, Warning};
use crate::work::Work;
use cbase::{List, NoMemory, Stop};
use flow::{Flow, Out, edges_by_point};
use graph::Graph;
use std::alloc::Global;
use trail::{Cause, Entry};
use transfer::start;

/// The entry of main.
fn entry_of(flow: &Flow) -> u32
    ensures { result ≡ entry_of flow.now flow.now.main }
{
    match flow.functions.as_slice().get(flow.main as usize) {
        None => 0,
        Some(function) => function.entry,
    }
}

/// So many slots as entries may be kept, but no more than a million.
fn slot_count(budget: u32) -> usize
    requires budget { 1 ≤ budget }
    ensures { 0 < result }
{
    if budget > 1_000_000 {
        return 1_000_000;
    }
    budget as usize
}

/// Nothing is known yet.
fn nothing_known(alloc: Global, flow: &Flow, limits: &Limits) -> Result<Work, NoMemory>
    requires budget { 1 ≤ limits.now.budget }
    ensures { IfOk result (λ work. IsNothingKnown flow.now limits.now work) }
{
    let newest: Vec<usize> = vec![in alloc; 0; flow.points as usize]?;
    let slots: Vec<usize> = vec![in alloc; 0; slot_count(limits.budget)]?;
    Ok(Work {
        trail: List::new(alloc),
        masks: Masks {
            items: List::new(alloc),
            newest,
            before: Vec::new(alloc),
        },
        slots,
        earlier: Vec::new(alloc),
        counts: Vec::new(alloc),
        kept: 0,
        warnings: List::new(alloc),
        next: None,
    })
}

/// Main's start, of which nothing is followed yet.
#[tactic(auto, using(crate::proofs::Closing::entry_within, crate::proofs::Closing::begun_within, crate::proofs::Closing::begun_placed))]
fn begun(alloc: Global, flow: &Flow, limits: &Limits, graph: Graph) -> Result<Work, NoMemory>
    requires flow { IsFlow flow.now }
    requires budget { 1 ≤ limits.now.budget }
    requires is { IsStartGraph flow.now graph }
    requires fits { FitsAt flow.now (entry_of flow.now flow.now.main) graph }
    ensures { IfOk result (λ work. Worked flow.now limits.now work 0) }
{
    if !is_small(&graph) {
        return Err(NoMemory);
    }
    let point = entry_of(flow);
    let mut work = nothing_known(alloc, flow, limits)?;
    match add(alloc, flow, limits, &mut work, point, Cause::Start, graph) {
        Ok(true) => Ok(work),
        Ok(false) => unreachable!(),
        Err(error) => {
            drop(work);
            Err(error)
        }
    }
}

/// Warnings in order, with those that are errors.
#[tactic(auto, using(crate::proofs::Closing::from_earlier))]
fn told(
    alloc: Global,
    flow: &Flow,
    limits: &Limits,
    trail: &[Entry],
    warnings: &[Warning],
) -> Result<List<Warning>, NoMemory>
    requires honest { AreHonest driven (widening limits.now.int_limit) flow.now trail.now }
    ensures { IfOk result (λ ordered. AreInOrder trail.now warnings.now ordered) }
{
    let marks = chained(alloc, trail)?;
    match in_order(alloc, marks.as_slice(), warnings) {
        Ok(ordered) => {
            drop(marks);
            Ok(ordered)
        }
        Err(error) => {
            drop(marks);
            Err(error)
        }
    }
}

/// The verdict where all was followed.
fn followed(
    alloc: Global,
    flow: &Flow,
    limits: &Limits,
    work: Work,
    at: usize,
) -> Result<Verdict, NoMemory>
    requires flow { IsFlow flow.now }
    requires exclusive { IsExclusive flow.now }
    requires calls { HasNoCalls flow.now }
    requires offsets { HaveOffsets flow.now }
    requires so_far { Worked flow.now limits.now work at }
    requires all { length work.trail ≤ at }
    ensures { IfOk result (λ verdict. IsVerdict flow.now limits.now verdict) }
{
    let Work {
        trail,
        masks,
        slots,
        earlier,
        counts,
        warnings,
        next,
        ..
    } = work;
    drop(masks);
    drop(slots);
    drop(earlier);
    drop(counts);
    drop(next);
    if warnings.is_empty() {
        drop(warnings);
        return Ok(Verdict::Safe { trail });
    }
    let ordered = told(alloc, flow, limits, trail.as_slice(), warnings.as_slice())?;
    drop(warnings);
    Ok(Verdict::Warned {
        warnings: ordered,
        trail,
        complete: true,
        next: None,
    })
}

/// The verdict where it ended at an entry, and the faults of the others are told of.
#[tactic(auto, using(crate::proofs::Closing::warned_halted, crate::proofs::Closing::spent_halted, crate::proofs::Closing::large_halted))]
fn halted(
    alloc: Global,
    flow: &Flow,
    limits: &Limits,
    work: Work,
    at: u32,
) -> Result<Verdict, NoMemory>
    requires flow { IsFlow flow.now }
    requires exclusive { IsExclusive flow.now }
    requires calls { HasNoCalls flow.now }
    requires offsets { HaveOffsets flow.now }
    requires so_far { IsResting flow.now limits.now work at (length work.trail) }
    ensures { IfOk result (λ verdict. IsVerdict flow.now limits.now verdict) }
{
    let Work {
        trail,
        masks,
        slots,
        earlier,
        counts,
        warnings,
        next,
        ..
    } = work;
    drop(masks);
    drop(slots);
    drop(earlier);
    drop(counts);
    match next {
        None => {
            drop(warnings);
            Ok(Verdict::Large {
                trail,
                entry: Some(at),
            })
        }
        Some(next) => {
            if warnings.is_empty() {
                drop(warnings);
                return Ok(Verdict::Spent { trail, next });
            }
            let ordered = told(alloc, flow, limits, trail.as_slice(), warnings.as_slice())?;
            drop(warnings);
            Ok(Verdict::Warned {
                warnings: ordered,
                trail,
                complete: false,
                next: Some(next),
            })
        }
    }
}

/// The verdict where a graph is large.
#[tactic(auto, using(crate::proofs::Closing::large_ended))]
fn ended(flow: &Flow, limits: &Limits, work: Work, which: u32) -> Verdict
    requires calls { HasNoCalls flow.now }
    requires so_far { IsEnded flow.now limits.now work.trail which }
    ensures { IsVerdict flow.now limits.now result }
{
    let Work { trail, .. } = work;
    Verdict::Large {
        trail,
        entry: Some(which),
    }
}

/// The verdict where it ended at an entry.
fn rest(
    alloc: Global,
    flow: &Flow,
    limits: &Limits,
    outs: &[Out],
    work: Work,
    at: u32,
) -> Result<Verdict, NoMemory>
    requires flow { IsFlow flow.now }
    requires exclusive { IsExclusive flow.now }
    requires calls { HasNoCalls flow.now }
    requires offsets { HaveOffsets flow.now }
    requires outs { AreOuts flow.now.edges outs.now }
    requires so_far { IsHalted flow.now limits.now work at }
    ensures { IfOk result (λ verdict. IsVerdict flow.now limits.now verdict) }
{
    let mut work = work;
    match tell_rest(alloc, flow, limits, outs, &mut work, at as usize)? {
        None => halted(alloc, flow, limits, work, at),
        Some(which) => Ok(ended(flow, limits, work, which)),
    }
}

/// Goes on until all is followed.
fn follow(
    alloc: Global,
    flow: &Flow,
    limits: &Limits,
    outs: &[Out],
    work: Work,
) -> Result<Verdict, NoMemory>
    requires flow { IsFlow flow.now }
    requires exclusive { IsExclusive flow.now }
    requires calls { HasNoCalls flow.now }
    requires offsets { HaveOffsets flow.now }
    requires outs { AreOuts flow.now.edges outs.now }
    requires so_far { Worked flow.now limits.now work 0 }
    ensures { IfOk result (λ verdict. IsVerdict flow.now limits.now verdict) }
{
    let mut work = work;
    for at in 0..4_000_000_000usize {
        if at >= work.trail.len() {
            return followed(alloc, flow, limits, work, at);
        }
        if !turn(alloc, flow, limits, outs, &mut work, at)? {
            return rest(alloc, flow, limits, outs, work, at as u32);
        }
    }
    Err(NoMemory)
}

#[tactic(auto, using(crate::proofs::Closing::large_start))]
/// The same of a flow graph without calls.
fn analyse_uncalled(alloc: Global, flow: &Flow, limits: &Limits) -> Result<Verdict, NoMemory>
    requires flow { IsFlow flow.now }
    requires exclusive { IsExclusive flow.now }
    requires calls { HasNoCalls flow.now }
    requires offsets { HaveOffsets flow.now }
    requires budget { 1 ≤ limits.now.budget }
    ensures { IfOk result (λ verdict. IsVerdict flow.now limits.now verdict) }
{
    let outs = edges_by_point(alloc, flow)?;
    match start(alloc, flow) {
        Err(Stop::NoMemory) => Err(NoMemory),
        Err(Stop::Large) => Ok(Verdict::Large {
            trail: List::new(alloc),
            entry: None,
        }),
        Ok(graph) => {
            let work = begun(alloc, flow, limits, graph)?;
            follow(alloc, flow, limits, outs.as_slice(), work)
        }
    }
}

/// What the runs of a flow graph may meet: the graphs that come of main's start along its edges, until nothing new comes or the
/// budget is spent. The entries are followed in the order in which they came about. A flow graph with calls is not followed yet.
pub fn analyse(alloc: Global, flow: &Flow, limits: &Limits) -> Result<Verdict, NoMemory>
    requires flow { IsFlow flow.now }
    requires exclusive { IsExclusive flow.now }
    requires offsets { HaveOffsets flow.now }
    requires budget { 1 ≤ limits.now.budget }
    ensures { IfOk result (λ verdict. IsVerdict flow.now limits.now verdict) }
{
    match first_call(flow) {
        None => analyse_uncalled(alloc, flow, limits),
        Some(place) => Ok(Verdict::NotYet { place }),
    }
}
