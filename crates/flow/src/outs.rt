ghost use Rattle.std.specs.Prelude.{◌≡◌, ◌↔◌, [], IsTrue, IfOk, All, length, slice_index_or};
ghost use Rattle.flow.specs.Counting.{AreEndsBelow};
ghost use Rattle.flow.specs.InRange.{IsInRange};
ghost use Rattle.flow.specs.Marked.{AreOuts, noted};
ghost use Rattle.flow.specs.Standing.{stands_at};
ghost use Rattle.flow.specs.Valid.{stands_alone, returns_what_stands, HasReturn};

use crate::flow_graph::{Flow, FlowEdge, FlowFunction, Width};
use crate::instruction::Instr;
use crate::standing::{registers_at, variables_at};
use cbase::NoMemory;
use std::alloc::Global;

/// Which edges lead out of a point, by their numbers in order.
#[derive(Clone, Copy)]
pub enum Out {
    /// There is none.
    Nothing,
    /// There is one.
    One(usize),
    /// There are two.
    Two(usize, usize),
    /// There are more.
    More,
}

/// What is noted where the edge of this number is one more.
fn noted(out: Out, number: usize) -> Out
    ensures { result ≡ noted number out }
{
    match out {
        Out::Nothing => Out::One(number),
        Out::One(other) => Out::Two(other, number),
        _ => Out::More,
    }
}

/// For each of so many points which edges lead out of it.
pub fn outs_of(alloc: Global, edges: &[FlowEdge], points: u32) -> Result<Vec<Out>, NoMemory>
    requires { AreEndsBelow edges.now points }
    ensures points { IfOk result (λ outs. length outs.items ≡ points) }
    ensures says { IfOk result (λ outs. AreOuts edges.now outs.items) }
{
    let mut outs: Vec<Out> = vec![in alloc; Out::Nothing; points as usize]?;
    for (at, edge) in edges.iter().enumerate() {
        let point = edge.from as usize;
        outs[point] = noted(outs[point], at);
    }
    Ok(outs)
}

/// Which edges lead out of a point; none where there is no such point.
pub fn out_at(outs: &[Out], point: u32) -> Out
    ensures { result ≡ slice_index_or outs.now point Out.Nothing }
{
    match outs.get(point as usize) {
        None => Out::Nothing,
        Some(out) => *out,
    }
}

/// Whether the register of a return stands alone, if it has one.
fn stands_alone(from: Option<u32>, widths: &[Width]) -> bool
    ensures { result ≡ stands_alone from widths.now }
{
    match (from, widths) {
        (None, []) => true,
        (Some(from), [only]) => only.register == from,
        _ => false,
    }
}

/// Whether an instruction is a return, and its register stands alone at a point.
fn returns_what_stands(flow: &Flow, point: u32, instr: &Instr) -> bool
    ensures { result ≡ returns_what_stands instr.now (stands_at flow.now point).registers }
{
    match instr {
        Instr::Return { from } => stands_alone(*from, registers_at(flow, point)),
        _ => false,
    }
}

/// Whether no variable of the frame stands at a point.
fn has_no_variables(flow: &Flow, point: u32) -> bool
    ensures { IsTrue result ↔ ((stands_at flow.now point).variables ≡ []) }
{
    variables_at(flow, point).is_empty()
}

/// Whether no edge leads out of a point.
fn is_end(outs: &[Out], point: u32) -> bool
    ensures { IsTrue result ↔ (slice_index_or outs.now point Out.Nothing ≡ Out.Nothing) }
{
    match out_at(outs, point) {
        Out::Nothing => true,
        _ => false,
    }
}

/// Whether the one edge out of a function's exit is its return, which leads to a point without edges out, and only the register
/// of the return stands at the exit.
fn has_return(flow: &Flow, outs: &[Out], function: &FlowFunction) -> bool
    requires { AreOuts flow.now.edges outs.now }
    ensures { IsTrue result ↔ HasReturn flow.now function.now }
{
    let Out::One(at) = out_at(outs, function.exit) else {
        return false;
    };
    let Some(edge) = flow.edges.as_slice().get(at) else {
        return false;
    };
    returns_what_stands(flow, function.exit, &edge.instr)
        && has_no_variables(flow, function.exit)
        && is_end(outs, edge.to)
}

/// Whether this holds of each function.
pub fn all_have_returns(alloc: Global, flow: &Flow) -> Result<bool, NoMemory>
    requires { IsInRange flow.now }
    ensures { IfOk result (λ holds. IsTrue holds ↔ All (HasReturn flow.now) flow.now.functions) }
{
    let outs = outs_of(alloc, flow.edges.as_slice(), flow.points)?;
    for function in flow.functions.as_slice() {
        if !has_return(flow, outs.as_slice(), function) {
            return Ok(false);
        }
    }
    Ok(true)
}
