ghost use Rattle.std.specs.Prelude.{◌≡◌, ◌<◌, ◌↔◌, length, All, IsTrue};
ghost use Rattle.flow.specs.Counting.{AreEndsBelow};
ghost use Rattle.flow.specs.InRange.{IsInRange};

use crate::flow_graph::{Flow, FlowEdge, FlowFunction};

/// Whether the edges and functions of a flow graph lie at points of it, and main is one of its functions.
pub fn is_in_range(flow: &Flow) -> bool
    ensures { IsTrue result ↔ IsInRange flow.now }
{
    if flow.main as usize >= flow.functions.len() {
        return false;
    }
    if !are_ends_below(flow.edges.as_slice(), flow.points) {
        return false;
    }
    are_functions_below(flow.functions.as_slice(), flow.points)
}

/// Whether each edge begins and ends at one of so many points.
fn are_ends_below(edges: &[FlowEdge], points: u32) -> bool
    ensures { IsTrue result ↔ AreEndsBelow edges.now points }
{
    for edge in edges {
        if edge.from >= points {
            return false;
        }
        if edge.to >= points {
            return false;
        }
    }
    true
}

/// Whether each function begins and ends at one of so many points.
fn are_functions_below(functions: &[FlowFunction], points: u32) -> bool
    ensures { IsTrue result ↔ All (λ function. (function.entry < points) × (function.exit < points)) functions.now }
{
    for function in functions {
        if function.entry >= points {
            return false;
        }
        if function.exit >= points {
            return false;
        }
    }
    true
}
