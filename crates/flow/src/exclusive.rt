//! Whether one edge leads out of each point, or two that exclude each other.
ghost use Rattle.std.specs.Prelude.{◌≡◌, ◌↔◌, IsTrue, IfOk, false, length, slice_get};
ghost use Rattle.std.specs.Option.{option_map_or};
ghost use Rattle.flow.specs.Exclusive.{IsExclusive, are_exclusive, exclude, is_allocation, is_difference_of, is_no_allocation, is_sameness_of};
ghost use Rattle.flow.specs.InRange.{IsInRange};
ghost use Rattle.flow.specs.Marked.{AreOuts, out_of};

use crate::flow_graph::{Flow, FlowEdge};
use crate::instruction::Instr;
use crate::outs::{Out, out_at, outs_of};
use cbase::{List, NoMemory};
use std::alloc::Global;

/// Whether an instruction passes where these registers differ.
fn is_difference_of(one: u32, other: u32, instr: &Instr) -> bool
    ensures { result ≡ is_difference_of one other instr.now }
{
    match instr {
        Instr::IfDifferent { left, right } => one == *left && other == *right,
        _ => false,
    }
}

/// Whether an instruction passes where these registers are equal.
fn is_sameness_of(one: u32, other: u32, instr: &Instr) -> bool
    ensures { result ≡ is_sameness_of one other instr.now }
{
    match instr {
        Instr::IfSame { left, right } => one == *left && other == *right,
        _ => false,
    }
}

/// Whether an instruction gives a block.
fn is_allocation(instr: &Instr) -> bool
    ensures { result ≡ is_allocation instr.now }
{
    match instr {
        Instr::Allocate { .. } => true,
        _ => false,
    }
}

/// Whether an instruction gives the null pointer in place of a block.
fn is_no_allocation(instr: &Instr) -> bool
    ensures { result ≡ is_no_allocation instr.now }
{
    match instr {
        Instr::AllocateNone { .. } => true,
        _ => false,
    }
}

/// Whether two instructions are the two of a test of the same registers, or the two of an allocation.
fn exclude(one: &Instr, other: &Instr) -> bool
    ensures { result ≡ exclude one.now other.now }
{
    match one {
        Instr::IfSame { left, right } => is_difference_of(*left, *right, other),
        Instr::IfDifferent { left, right } => is_sameness_of(*left, *right, other),
        Instr::Allocate { .. } => is_no_allocation(other),
        Instr::AllocateNone { .. } => is_allocation(other),
        _ => false,
    }
}

/// Whether two edges are there and exclude each other.
fn exclude_each_other(edges: &[FlowEdge], one: usize, other: usize) -> bool
    ensures { result ≡ option_map_or (λ edge. option_map_or (λ second. exclude edge.instr second.instr) (slice_get edges.now other) false)
        (slice_get edges.now one) false }
{
    match edges.get(one) {
        None => false,
        Some(edge) => match edges.get(other) {
            None => false,
            Some(second) => exclude(&edge.instr, &second.instr),
        },
    }
}

/// Whether the edges out of a point are one, or two that exclude each other.
fn is_exclusive_at(edges: &[FlowEdge], outs: &[Out], point: u32) -> bool
    requires { AreOuts edges.now outs.now }
    ensures { result ≡ are_exclusive (out_of edges.now point) }
{
    match out_at(outs, point) {
        Out::Two(one, other) => exclude_each_other(edges, one, other),
        Out::More => false,
        _ => true,
    }
}

/// Whether this holds of each point. It takes time in proportion to points and edges.
pub fn is_exclusive(alloc: Global, flow: &Flow) -> Result<bool, NoMemory>
    requires { IsInRange flow.now }
    ensures { IfOk result (λ holds. IsTrue holds ↔ IsExclusive flow.now) }
{
    let edges = flow.edges.as_slice();
    let outs = outs_of(alloc, edges, flow.points)?;
    for point in 0..flow.points {
        if !is_exclusive_at(edges, outs.as_slice(), point) {
            return Ok(false);
        }
    }
    Ok(true)
}

/// For each point of a graph the edges out of it, by their numbers: where a graph is exclusive there are two at most. It takes time
/// in proportion to points and edges.
pub fn edges_by_point(alloc: Global, flow: &Flow) -> Result<List<Out>, NoMemory>
    requires { IsInRange flow.now }
    ensures points { IfOk result (λ outs. length outs ≡ flow.now.points) }
    ensures says { IfOk result (λ outs. AreOuts flow.now.edges outs) }
{
    let outs = outs_of(alloc, flow.edges.as_slice(), flow.points)?;
    Ok(List::from_vec(outs))
}
