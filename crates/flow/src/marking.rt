ghost use Rattle.std.specs.Prelude.{◌≡◌, ◌<◌, ◌↔◌, ◌≢◌, All, Contains, IsTrue, IfOk, false, map, not, ◌||◌, slice_index_or};
ghost use Rattle.std.specs.List.{list_all};
ghost use Rattle.flow.specs.Counting.{AreEndsBelow};
ghost use Rattle.flow.specs.InRange.{IsInRange};
ghost use Rattle.flow.specs.Walks.{is_return};
ghost use Rattle.flow.specs.Marked.{AreMarks};

use crate::flow_graph::{Flow, FlowEdge, FlowFunction};
use crate::instruction::Instr;
use cbase::NoMemory;
use std::alloc::Global;

/// For each of so many points whether it is among these.
fn marks_of(alloc: Global, points: u32, numbers: &[u32]) -> Result<Vec<bool>, NoMemory>
    requires { All (λ number. number < points) numbers.now }
    ensures { IfOk result (λ marks. AreMarks numbers.now marks.items) }
{
    let mut marks: Vec<bool> = vec![in alloc; false; points as usize]?;
    for number in numbers {
        marks[*number as usize] = true;
    }
    Ok(marks)
}

/// Whether a point is marked.
fn is_marked(marks: &[bool], point: u32) -> bool
    ensures { result ≡ slice_index_or marks.now point false }
{
    match marks.get(point as usize) {
        None => false,
        Some(mark) => *mark,
    }
}

/// Whether no entry is marked.
fn no_entry_is_marked(functions: &[FlowFunction], marks: &[bool]) -> bool
    ensures { result ≡ list_all (λ function. not (slice_index_or marks.now function.entry false)) functions.now }
{
    functions
        .iter()
        .all(|function| !is_marked(marks, function.entry))
}

/// Whether an instruction is a return.
pub fn is_return(instr: &Instr) -> bool
    ensures { result ≡ is_return instr.now }
{
    match instr {
        Instr::Return { .. } => true,
        _ => false,
    }
}

/// Whether each return begins at a point that is marked.
fn returns_are_marked(edges: &[FlowEdge], marks: &[bool]) -> bool
    ensures { result ≡ list_all (λ edge. not (is_return edge.instr) || slice_index_or marks.now edge.from false) edges.now }
{
    edges.iter().all(|edge| !is_return(&edge.instr) || is_marked(marks, edge.from))
}

/// The ends of edges.
fn ends_of(alloc: Global, edges: &[FlowEdge]) -> Result<Vec<u32>, NoMemory>
    ensures { IfOk result (λ ends. ends.items ≡ map (λ edge. edge.to) edges.now) }
{
    let ends = edges.iter().map(|edge| edge.to).collect(alloc)?;
    Ok(ends)
}

/// The exits of functions.
fn exits_of(alloc: Global, functions: &[FlowFunction]) -> Result<Vec<u32>, NoMemory>
    ensures { IfOk result (λ exits. exits.items ≡ map (λ function. function.exit) functions.now) }
{
    let exits = functions
        .iter()
        .map(|function| function.exit)
        .collect(alloc)?;
    Ok(exits)
}

/// For each point whether an edge leads to it.
fn ends_marked(alloc: Global, edges: &[FlowEdge], points: u32) -> Result<Vec<bool>, NoMemory>
    requires { AreEndsBelow edges.now points }
    ensures { IfOk result (λ marks. AreMarks (map (λ edge. edge.to) edges.now) marks.items) }
{
    let ends = ends_of(alloc, edges)?;
    marks_of(alloc, points, ends.as_slice())
}

/// For each point whether it is the exit of a function.
fn exits_marked(
    alloc: Global,
    functions: &[FlowFunction],
    points: u32,
) -> Result<Vec<bool>, NoMemory>
    requires { All (λ function. (function.entry < points) × (function.exit < points)) functions.now }
    ensures { IfOk result (λ marks. AreMarks (map (λ function. function.exit) functions.now) marks.items) }
{
    let exits = exits_of(alloc, functions)?;
    marks_of(alloc, points, exits.as_slice())
}

/// Whether no edge leads to the entry of a function.
pub fn no_edge_enters(alloc: Global, flow: &Flow) -> Result<bool, NoMemory>
    requires { IsInRange flow.now }
    ensures { IfOk result (λ holds. IsTrue holds
        ↔ All (λ function. All (λ edge. edge.to ≢ function.entry) flow.now.edges) flow.now.functions) }
{
    let marks = ends_marked(alloc, flow.edges.as_slice(), flow.points)?;
    Ok(no_entry_is_marked(flow.functions.as_slice(), marks.as_slice()))
}

/// Whether each return begins at the exit of a function.
pub fn returns_leave_exits(alloc: Global, flow: &Flow) -> Result<bool, NoMemory>
    requires { IsInRange flow.now }
    ensures { IfOk result (λ holds. IsTrue holds
        ↔ All (λ edge. IsTrue (is_return edge.instr) → Contains (map (λ function. function.exit) flow.now.functions) edge.from) flow.now.edges) }
{
    let marks = exits_marked(alloc, flow.functions.as_slice(), flow.points)?;
    Ok(returns_are_marked(flow.edges.as_slice(), marks.as_slice()))
}
