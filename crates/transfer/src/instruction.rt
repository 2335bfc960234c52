//! The post of an instruction on a graph in which no register through which it goes names a segment.
ghost use Rattle.std.specs.Prelude.{◌≡◌, true, false, map, length, IfOk, IfErr};
ghost use Rattle.block_steps.specs.Blocks.{AnyMemory, NoFault, has_room};
ghost use Rattle.block_steps.specs.Entering.{EnterTail, MayEnter, Enters, enter_post};
ghost use Rattle.changes.specs.FollowingAlike.{StepMeansAlike};
ghost use Rattle.changes.specs.Posted.{IsPost};
ghost use Rattle.flow.specs.Machine.{size_in};
ghost use Rattle.flow.specs.Standing.{stands_at, stands_after};
ghost use Rattle.flow.specs.Valid.{IsFlow};
ghost use Rattle.transfer.specs.Along.{is_full};
ghost use Rattle.transfer.specs.Fitting.{FitWith, MayFollow};
ghost use Rattle.transfer.specs.Means.{InstrMeans, stopped};
ghost use Rattle.transfer.specs.Posts.{has_step, edge_post};

use crate::ending::end;
use crate::sizes::sizes_in;
use block_steps::{allocate, enter, release};
use cbase::{NoMemory, Stop};
use flow::{Flow, Instr};
use graph::{Graph, Post};
use heap_steps::{finish, leave, refuse};
use range_steps::{copy, fill};
use register_steps::{address, compute, convert, input, move_to, number, shift, shift_by};
use reinterpret::{read, test_equal, write};
use std::alloc::Global;

/// The answer of a step that is never too large.
fn stop(answer: Result<Post, NoMemory>) -> Result<Post, Stop>
    ensures { result ≡ stopped answer }
{
    match answer {
        Ok(post) => Ok(post),
        Err(NoMemory) => Err(Stop::NoMemory),
    }
}

/// The post where variables begin to stand.
fn entered(alloc: Global, flow: &Flow, graph: &Graph, variables: &[u32]) -> Result<Post, Stop>
    requires may { MayEnter graph.now variables.now (map (size_in flow.now) variables.now) }
    ensures post { IfOk result (λ post. IsPost (enter_post graph.now variables.now (map (size_in flow.now) variables.now)) post) }
    ensures means { IfOk result (λ post. StepMeansAlike graph.now (Enters variables.now (map (size_in flow.now) variables.now)) NoFault (EnterTail graph.now variables.now (map (size_in flow.now) variables.now)) AnyMemory post) }
    ensures large { IfErr result (λ stop. stop ≡ Stop.Large → has_room graph.now (length variables.now) ≡ false) }
{
    match sizes_in(alloc, flow, variables) {
        Err(NoMemory) => Err(Stop::NoMemory),
        Ok(sizes) => enter(alloc, graph, variables, sizes.as_slice()),
    }
}

/// The post of an instruction.
pub(crate) fn post_of(
    alloc: Global,
    flow: &Flow,
    point: u32,
    instr: &Instr,
    graph: &Graph,
) -> Result<Post, Stop>
    requires flow { IsFlow flow.now }
    requires step { has_step instr.now ≡ true }
    requires may { MayFollow flow.now point instr.now graph.now }
    ensures post { IfOk result (λ post. IsPost (edge_post flow.now instr.now graph.now) post) }
    ensures means { IfOk result (λ post. InstrMeans flow.now point instr.now graph.now post) }
    ensures fits { IfOk result (λ post. FitWith flow.now (stands_after flow.now instr.now (stands_at flow.now point)) post.graphs) }
    ensures large { IfErr result (λ stop. stop ≡ Stop.Large → is_full instr.now graph.now ≡ true) }
{
    let _ = graph.value_count();
    match instr {
        Instr::Number { into, value, size } => stop(number(alloc, graph, *into, *value, *size)),
        Instr::Address { into, variable } => stop(address(alloc, graph, *into, *variable)),
        Instr::Move { into, from } => stop(move_to(alloc, graph, *into, *from)),
        Instr::Read {
            into,
            at,
            size,
            pointer,
        } => stop(read(alloc, graph, *at, *size, *pointer, *into)),
        Instr::Write { at, from, size } => stop(write(alloc, graph, *at, *size, *from)),
        Instr::Shift { into, at, by } => stop(shift(alloc, graph, *into, *at, *by)),
        Instr::ShiftBy {
            into,
            at,
            by,
            scale,
        } => stop(shift_by(alloc, graph, *into, *at, *by, *scale)),
        Instr::Compute {
            into,
            op,
            left,
            right,
            size,
            signed,
        } => stop(compute(alloc, graph, *into, *op, *left, *right, *size, *signed)),
        Instr::Convert {
            into,
            from,
            size,
            signed,
        } => stop(convert(alloc, graph, *into, *from, *size, *signed)),
        Instr::IfSame { left, right } => test_equal(alloc, graph, *left, *right, true),
        Instr::IfDifferent { left, right } => test_equal(alloc, graph, *left, *right, false),
        Instr::Allocate {
            into,
            bytes,
            zeroed,
        } => allocate(alloc, graph, *bytes, *zeroed, *into),
        Instr::AllocateNone { into } => refuse(alloc, graph, *into),
        Instr::Release { at } => release(alloc, graph, *at),
        Instr::Fill { at, from, length } => fill(alloc, graph, *at, *from, *length),
        Instr::Copy {
            to,
            from,
            length,
            disjoint,
        } => copy(alloc, graph, *to, *from, *length, *disjoint),
        Instr::Enter { variables } => entered(alloc, flow, graph, variables.as_slice()),
        Instr::Leave { variables } => leave(alloc, graph, variables.as_slice()),
        Instr::Finish { registers } => finish(alloc, graph, registers),
        Instr::Input {
            into,
            size,
            truth,
            ..
        } => stop(input(alloc, graph, *into, *size, *truth)),
        Instr::Close => end(alloc, graph),
        Instr::Call { .. } | Instr::Return { .. } => unreachable!(),
    }
}
