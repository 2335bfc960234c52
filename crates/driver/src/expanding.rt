//! The posts of an entry.
ghost use Rattle.std.specs.Prelude.{◌≡◌, ◌+◌, ◌<◌, true, Some, length, slice_get, slice_index_or, IfOk, IfErr};
ghost use Rattle.flow.specs.Exclusive.{IsExclusive};
ghost use Rattle.flow.specs.Marked.{AreOuts};
ghost use Rattle.flow.specs.Valid.{IsFlow};
ghost use Rattle.graph.specs.Large.{is_large};
ghost use Rattle.trail.specs.Seen.{is_ordinary};
ghost use Rattle.driver.specs.Looping.{Onward, leads, is_kept, point_of, Worked, OnEntry, AtEdge, OnEdge, IsPostAt, IsStoppedAt, IsHalted, IsEntryAt};

use crate::adding::add;
use crate::leaving::left_post;
use crate::looking::is_small;
use crate::noting::note_kinds;
use crate::verdict::Limits;
use crate::work::Work;
use cbase::{NoMemory, Stop};
use flow::{Flow, FlowEdge, Instr, Out};
use graph::{Graph, Post};
use std::alloc::Global;
use trail::{Cause, Entry};
use transfer::post;

/// Whether an instruction is neither a call nor a return.
fn is_ordinary(instr: &Instr) -> bool
    ensures { result ≡ is_ordinary instr.now }
{
    match instr {
        Instr::Call { .. } => false,
        Instr::Return { .. } => false,
        _ => true,
    }
}

/// Whether the edge leads from the point, and is neither a call nor a return.
pub(crate) fn leads(point: u32, edge: &FlowEdge) -> bool
    ensures { result ≡ leads point edge.now }
{
    point == edge.from && is_ordinary(&edge.instr)
}

/// The edges out of a point.
pub(crate) fn out_of(outs: &[Out], point: u32) -> Out
    ensures { result ≡ slice_index_or outs.now point Out.Nothing }
{
    match outs.get(point as usize) {
        None => Out::Nothing,
        Some(out) => *out,
    }
}

/// The point of an entry.
pub(crate) fn point_of(trail: &[Entry], at: usize) -> u32
    ensures { result ≡ point_of trail.now at }
{
    match trail.get(at) {
        None => 0,
        Some(entry) => entry.point,
    }
}

/// Whether an entry is kept.
pub(crate) fn is_kept(trail: &[Entry], at: usize) -> bool
    ensures { result ≡ is_kept trail.now at }
{
    match trail.get(at) {
        None => false,
        Some(entry) => entry.kept,
    }
}

/// Puts in one graph of a post.
#[tactic(auto, using(crate::proofs::Followed::to_within))]
fn add_step(
    alloc: Global,
    flow: &Flow,
    limits: &Limits,
    work: &mut Work,
    at: usize,
    point: u32,
    number: usize,
    edge: &FlowEdge,
    post: &Post,
    which: usize,
) -> Result<bool, NoMemory>
    requires flow { IsFlow flow.now }
    requires so_far { OnEdge flow.now limits.now work.old at point number edge.now post.now which }
    ensures { IfOk result (λ fits. Onward fits (OnEdge flow.now limits.now work.new at point number edge.now post.now (which + 1)) (IsHalted flow.now limits.now work.new at)) }
{
    if at >= 4_000_000_000 || number >= 4_000_000_000 || which >= 4_000_000_000 {
        return Err(NoMemory);
    }
    match post.graphs.as_slice().get(which) {
        None => Err(NoMemory),
        Some(graph) => match graph.copied(alloc) {
            Err(_) => Err(NoMemory),
            Ok(copy) => {
                if !is_small(&copy) {
                    return Err(NoMemory);
                }
                let cause = Cause::Step {
                    from: at as u32,
                    edge: number as u32,
                    result: which as u32,
                    loss: post.loss,
                };
                if !add(alloc, flow, limits, work, edge.to, cause, copy)? {
                    return Ok(false);
                }
                Ok(true)
            }
        },
    }
}

/// Puts in a post along an edge from the entry.
#[tactic(auto, using(crate::proofs::Followed::on_edge_first, crate::proofs::Followed::on_edge_last))]
fn add_post(
    alloc: Global,
    flow: &Flow,
    limits: &Limits,
    work: &mut Work,
    at: usize,
    point: u32,
    number: usize,
    edge: &FlowEdge,
    post: &Post,
) -> Result<bool, NoMemory>
    requires flow { IsFlow flow.now }
    requires so_far { AtEdge flow.now limits.now work.old at point number edge.now post.now }
    ensures { IfOk result (λ fits. Onward fits (OnEntry flow.now limits.now work.new at point (number + 1)) (IsHalted flow.now limits.now work.new at)) }
{
    if at >= 4_000_000_000 || number >= 4_000_000_000 {
        return Err(NoMemory);
    }
    note_kinds(
        &mut work.warnings,
        post.kinds.as_slice(),
        edge.place,
        at as u32,
        number as u32,
    )?;
    for which in 0..post.graphs.len() {
        if !add_step(
            alloc, flow, limits, work, at, point, number, edge, post, which,
        )? {
            return Ok(false);
        }
    }
    Ok(true)
}

/// Why there is no post of a graph with no room for what comes: it is large. One that is not has so much that nothing names that
/// there was no memory for it long before.
fn stop_of(alloc: Global, graph: &Graph) -> Stop
    ensures { result ≡ Stop.Large → is_large 33554432 graph.now ≡ true }
{
    match graph.is_large(alloc, 33_554_432) {
        Ok(true) => Stop::Large,
        _ => Stop::NoMemory,
    }
}

/// The post along an edge from an entry.
pub(crate) fn post_at(
    alloc: Global,
    flow: &Flow,
    limits: &Limits,
    trail: &[Entry],
    at: usize,
    point: u32,
    number: usize,
    edge: &FlowEdge,
) -> Result<Post, Stop>
    requires flow { IsFlow flow.now }
    requires is { IsEntryAt flow.now limits.now trail.now at point }
    requires stands { slice_get flow.now.edges number ≡ Some edge.now }
    requires leads { leads point edge.now ≡ true }
    ensures is { IfOk result (λ post. IsPostAt flow.now trail.now at edge.now post) }
    ensures stop { IfErr result (λ stop. IsStoppedAt trail.now at stop) }
{
    if number >= 4_000_000_000 {
        return Err(Stop::NoMemory);
    }
    match trail.get(at) {
        None => Err(Stop::NoMemory),
        Some(entry) => match post(alloc, flow, number as u32, &entry.graph) {
            Ok(whole) => match left_post(alloc, whole) {
                Ok(post) => Ok(post),
                Err(NoMemory) => Err(Stop::NoMemory),
            },
            Err(Stop::NoMemory) => Err(Stop::NoMemory),
            Err(Stop::Large) => Err(stop_of(alloc, &entry.graph)),
        },
    }
}

/// Puts in the post along an edge that leads from the entry.
#[tactic(auto, using(crate::proofs::Rested::entry_of, crate::proofs::Followed::at_edge, crate::proofs::Followed::halted_large))]
fn expand_edge(
    alloc: Global,
    flow: &Flow,
    limits: &Limits,
    work: &mut Work,
    at: usize,
    point: u32,
    number: usize,
    edge: &FlowEdge,
) -> Result<bool, NoMemory>
    requires flow { IsFlow flow.now }
    requires so_far { OnEntry flow.now limits.now work.old at point number }
    requires stands { slice_get flow.now.edges number ≡ Some edge.now }
    requires leads { leads point edge.now ≡ true }
    ensures { IfOk result (λ fits. Onward fits (OnEntry flow.now limits.now work.new at point (number + 1)) (IsHalted flow.now limits.now work.new at)) }
{
    match post_at(
        alloc,
        flow,
        limits,
        work.trail.as_slice(),
        at,
        point,
        number,
        edge,
    ) {
        Err(Stop::NoMemory) => Err(NoMemory),
        Err(Stop::Large) => Ok(false),
        Ok(post) => add_post(alloc, flow, limits, work, at, point, number, edge, &post),
    }
}

/// The same for any edge.
#[tactic(auto, using(crate::proofs::Followed::on_entry_skip, crate::proofs::Followed::stands_there))]
fn expand_any(
    alloc: Global,
    flow: &Flow,
    limits: &Limits,
    work: &mut Work,
    at: usize,
    point: u32,
    number: usize,
) -> Result<bool, NoMemory>
    requires flow { IsFlow flow.now }
    requires so_far { OnEntry flow.now limits.now work.old at point number }
    ensures { IfOk result (λ fits. Onward fits (OnEntry flow.now limits.now work.new at point (number + 1)) (IsHalted flow.now limits.now work.new at)) }
{
    match flow.edges.as_slice().get(number) {
        None => Err(NoMemory),
        Some(edge) => {
            if !leads(point, edge) {
                return Ok(true);
            }
            expand_edge(alloc, flow, limits, work, at, point, number, edge)
        }
    }
}

/// Puts in the posts along all edges out of the entry's point.
fn expand(
    alloc: Global,
    flow: &Flow,
    limits: &Limits,
    outs: &[Out],
    work: &mut Work,
    at: usize,
    point: u32,
) -> Result<bool, NoMemory>
    requires flow { IsFlow flow.now }
    requires exclusive { IsExclusive flow.now }
    requires outs { AreOuts flow.now.edges outs.now }
    requires so_far { OnEntry flow.now limits.now work.old at point 0 }
    ensures { IfOk result (λ fits. Onward fits (OnEntry flow.now limits.now work.new at point (length flow.now.edges)) (IsHalted flow.now limits.now work.new at)) }
{
    match out_of(outs, point) {
        Out::Nothing => Ok(true),
        Out::One(number) => {
            if !expand_any(alloc, flow, limits, work, at, point, number)? {
                return Ok(false);
            }
            Ok(true)
        }
        Out::Two(number, second) => {
            if !expand_any(alloc, flow, limits, work, at, point, number)? {
                return Ok(false);
            }
            if !expand_any(alloc, flow, limits, work, at, point, second)? {
                return Ok(false);
            }
            Ok(true)
        }
        Out::More => unreachable!(),
    }
}

/// One turn: the posts of one entry, if it is kept.
#[tactic(auto, using(crate::proofs::Followed::on_entry_first, crate::proofs::Followed::worked_next, crate::proofs::Followed::worked_skip))]
pub(crate) fn turn(
    alloc: Global,
    flow: &Flow,
    limits: &Limits,
    outs: &[Out],
    work: &mut Work,
    at: usize,
) -> Result<bool, NoMemory>
    requires flow { IsFlow flow.now }
    requires exclusive { IsExclusive flow.now }
    requires outs { AreOuts flow.now.edges outs.now }
    requires so_far { Worked flow.now limits.now work.old at }
    requires within { at < length work.old.trail }
    ensures { IfOk result (λ fits. Onward fits (Worked flow.now limits.now work.new (at + 1)) (IsHalted flow.now limits.now work.new at)) }
{
    if !is_kept(work.trail.as_slice(), at) {
        return Ok(true);
    }
    let point = point_of(work.trail.as_slice(), at);
    if !expand(alloc, flow, limits, outs, work, at, point)? {
        return Ok(false);
    }
    Ok(true)
}
