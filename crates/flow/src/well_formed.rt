ghost use Rattle.std.specs.Prelude.{◌≡◌, ◌↔◌, not, ◌&&◌, All, IsTrue, IfOk, Some, nat_eq, length};
ghost use Rattle.std.specs.List.{list_any};
ghost use Rattle.flow.specs.Deciding.{is_right_alone, closes_once};
ghost use Rattle.flow.specs.Valid.{IsFlow, is_close, is_call_of, exit_of};

use crate::edges::{all_lead, are_right_edges};
use crate::flow_graph::Flow;
use crate::initials::are_initials_apart;
use crate::instruction::Instr;
use crate::marking::{no_edge_enters, returns_leave_exits};
use crate::outs::all_have_returns;
use crate::points::{
    are_right_functions, are_right_heads, are_right_initials, are_right_standings,
    are_right_variables,
};
use crate::range::is_in_range;
use crate::separation::are_separate;
use cbase::NoMemory;
use std::alloc::Global;

/// Whether an instruction looks for blocks that were never freed.
fn is_close(instr: &Instr) -> bool
    ensures { result ≡ is_close instr.now }
{
    match instr {
        Instr::Close => true,
        _ => false,
    }
}

/// Whether an instruction calls the function of this number.
fn is_call_of(called: u32, instr: &Instr) -> bool
    ensures { result ≡ is_call_of called instr.now }
{
    match instr {
        Instr::Call { function, .. } => *function == called,
        _ => false,
    }
}

/// Whether an edge looks for blocks that were never freed.
fn closes(flow: &Flow) -> bool
    ensures { result ≡ list_any (λ edge. is_close edge.instr) flow.now.edges }
{
    flow.edges
        .as_slice()
        .iter()
        .any(|edge| is_close(&edge.instr))
}

/// Whether an edge calls main.
fn calls_main(flow: &Flow) -> bool
    ensures { result ≡ list_any (λ edge. is_call_of flow.now.main edge.instr) flow.now.edges }
{
    let main = flow.main;
    flow.edges
        .as_slice()
        .iter()
        .any(|edge| is_call_of(main, &edge.instr))
}

/// Whether main is not called, or no edge looks for blocks that were never freed.
fn closes_once(flow: &Flow) -> bool
    ensures { result ≡ closes_once flow.now }
{
    !closes(flow) || !calls_main(flow)
}

/// Whether a point is the exit of main.
fn is_exit_of_main(flow: &Flow, point: u32) -> bool
    ensures { IsTrue result ↔ (exit_of flow.now flow.now.main ≡ Some point) }
{
    match flow.functions.as_slice().get(flow.main as usize) {
        None => false,
        Some(main) => main.exit == point,
    }
}

/// Whether blocks that were never freed are looked for at the exit of main alone.
fn closes_at_exit(flow: &Flow) -> bool
    ensures { IsTrue result ↔ All (λ edge. IsTrue (is_close edge.instr) → exit_of flow.now flow.now.main ≡ Some edge.to) flow.now.edges }
{
    for edge in flow.edges.as_slice() {
        if is_close(&edge.instr) && !is_exit_of_main(flow, edge.to) {
            return false;
        }
    }
    true
}

/// Whether what is told of points is told of each.
fn tells_each_point(flow: &Flow) -> bool
    ensures { result ≡ nat_eq (length flow.now.stands) flow.now.points }
{
    flow.stands.len() == flow.points as usize
}

/// Whether all holds that is told of one point, function, scalar or edge alone.
fn is_right_alone(flow: &Flow) -> bool
    ensures { result ≡ is_right_alone flow.now }
{
    are_right_heads(flow)
        && tells_each_point(flow)
        && are_right_standings(flow)
        && are_right_variables(flow)
        && are_right_initials(flow)
        && are_initials_apart(flow.initial.as_slice())
        && are_right_functions(flow)
        && are_right_edges(flow)
        && closes_once(flow)
}

/// Whether all that holds of each flow graph holds of such data.
///
/// It is made to take time in proportion to the edges and points, and for each of them to the square of what stands there and of
/// what its instruction names; for what static variables hold at the start it is as `are_initials_apart` says. No clause says so;
/// `bench/linear.py` measures it.
pub fn is_well_formed(alloc: Global, flow: &Flow) -> Result<bool, NoMemory>
    ensures { IfOk result (λ holds. IsTrue holds ↔ IsFlow flow.now) }
{
    if !is_in_range(flow) {
        return Ok(false);
    }
    if !is_right_alone(flow) {
        return Ok(false);
    }
    if !closes_at_exit(flow) {
        return Ok(false);
    }
    let lead = all_lead(alloc, flow)?;
    if !lead {
        return Ok(false);
    }
    let are_free = no_edge_enters(alloc, flow)?;
    if !are_free {
        return Ok(false);
    }
    let leave = returns_leave_exits(alloc, flow)?;
    if !leave {
        return Ok(false);
    }
    let return_once = all_have_returns(alloc, flow)?;
    if !return_once {
        return Ok(false);
    }
    let separate = are_separate(alloc, flow)?;
    Ok(separate)
}
