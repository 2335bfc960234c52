ghost use Rattle.std.specs.Prelude.{◌≡◌, ◌↔◌, All, IsTrue, IfOk};
ghost use Rattle.std.specs.List.{list_all};
ghost use Rattle.flow.specs.Standing.{stands_at, stands_after};
ghost use Rattle.flow.specs.Deciding.{is_right_edge};

use crate::behind::leads;
use crate::flow_graph::{Flow, FlowEdge};
use crate::naming::names_what_is_there;
use crate::reading::{reads_what_stands, tests_one_size};
use crate::scopes::{calls_rightly, has_scope};
use crate::sizes::has_sizes;
use cbase::NoMemory;
use std::alloc::Global;

/// Whether what an edge names is there, its sizes are right, and what it reads, enters and leaves stands as it should.
fn is_right_edge(flow: &Flow, edge: &FlowEdge) -> bool
    ensures { result ≡ is_right_edge flow.now edge.now }
{
    names_what_is_there(flow, &edge.instr)
        && has_sizes(&edge.instr)
        && calls_rightly(flow, &edge.instr)
        && reads_what_stands(flow, edge.from, &edge.instr)
        && tests_one_size(flow, edge.from, &edge.instr)
        && has_scope(flow, edge.from, &edge.instr)
}

/// Whether this holds of each edge.
pub fn are_right_edges(flow: &Flow) -> bool
    ensures { result ≡ list_all (is_right_edge flow.now) flow.now.edges }
{
    flow.edges
        .as_slice()
        .iter()
        .all(|edge| is_right_edge(flow, edge))
}

/// Whether what stands behind each edge's instruction is what stands at its end.
pub fn all_lead(alloc: Global, flow: &Flow) -> Result<bool, NoMemory>
    ensures { IfOk result (λ lead. IsTrue lead
        ↔ All (λ edge. stands_after flow.now edge.instr (stands_at flow.now edge.from) ≡ stands_at flow.now edge.to) flow.now.edges) }
{
    for edge in flow.edges.as_slice() {
        if !leads(alloc, flow, edge)? {
            return Ok(false);
        }
    }
    Ok(true)
}
