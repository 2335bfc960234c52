ghost use Rattle.std.specs.Prelude.{◌≡◌, ◌+◌, ◌<◌, ◌-◌, ◌^◌, ◌∷◌, ◌++◌, [], ℕ, length, slice_index, slice_set, if◌then◌else◌, IfOk, OnOk};
ghost use Rattle.flow.specs.Walks.{is_return};
ghost use Rattle.flow.specs.Counting.{AreEndsBelow, AreLinks};

use crate::flow_graph::FlowEdge;
use crate::instruction::Instr;
use cbase::NoMemory;
use std::alloc::Global;

/// The edges out of each point that walks go along, from the last to the first.
///
/// A cursor is one more than the number of an edge, or 0 for none.
#[derive(Drop)]
pub struct Links {
    /// For each point the cursor of the last edge out of it.
    pub first: Vec<usize>,
    /// For each edge the cursor of the last one before it out of the same point.
    pub next: Vec<usize>,
}

/// The links of the edges of a graph with so many points.
pub fn links_of(alloc: Global, edges: &[FlowEdge], points: u32) -> Result<Links, NoMemory>
    requires { AreEndsBelow edges.now points }
    ensures { IfOk result (λ links. AreLinks edges.now points (length edges.now) links.first.items links.next.items) }
{
    let mut first: Vec<usize> = vec![in alloc; 0; points as usize]?;
    let mut next: Vec<usize> = Vec::new(alloc);
    for (at, edge) in edges.iter().enumerate() {
        link(&mut first, &mut next, edge, at)?;
    }
    Ok(Links { first, next })
}

/// Puts the edge of number `at` before the earlier ones out of its point; walks go along no return.
fn link(
    first: &mut Vec<usize>,
    next: &mut Vec<usize>,
    edge: &FlowEdge,
    at: usize,
) -> Result<(), NoMemory>
    requires point { edge.now.from < length first.old.items }
    requires room { at < 2 ^ 64 - 1 }
    ensures next { OnOk result (next.new.items ≡ next.old.items ++ slice_index first.old.items edge.now.from ∷ []) }
    ensures first { OnOk result (first.new.items
        ≡ (if is_return edge.now.instr then first.old.items else slice_set first.old.items edge.now.from (at + 1))) }
{
    let point = edge.from as usize;
    next.push(first[point])?;
    match edge.instr {
        Instr::Return { .. } => {}
        _ => first[point] = at + 1,
    }
    Ok(())
}
