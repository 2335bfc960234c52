//! The first call of a flow graph.
ghost use Rattle.std.specs.Prelude.{◌≡◌, ◌+◌, length};
ghost use Rattle.trail.specs.Seen.{is_call};
ghost use Rattle.driver.specs.Calls.{earlier, TellsCallBelow, TellsCall};

use cbase::Place;
use flow::{Flow, FlowEdge, Instr};

/// Whether an instruction is a call.
fn is_call(instr: &Instr) -> bool
    ensures { result ≡ is_call instr.now }
{
    match instr {
        Instr::Call { .. } => true,
        _ => false,
    }
}

/// Of a place and that of an edge the one that stands first, if the edge is a call.
fn earlier(found: Option<Place>, edge: &FlowEdge) -> Option<Place>
    ensures { result ≡ earlier found edge.now }
{
    if !is_call(&edge.instr) {
        return found;
    }
    match found {
        None => Some(edge.place),
        Some(place) => {
            if place.at <= edge.place.at {
                return Some(place);
            }
            Some(edge.place)
        }
    }
}

/// The place of the first call, if there is one.
pub(crate) fn first_call(flow: &Flow) -> Option<Place>
    ensures { TellsCall flow.now result }
{
    let edges = flow.edges.as_slice();
    let mut found = None;
    for number in 0..edges.len() {
        found = earlier(found, &edges[number]);
    }
    found
}
