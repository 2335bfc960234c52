//! Whether a node of a segment may be split off.
ghost use Rattle.std.specs.Prelude.{◌≡◌, ◌<◌, ◌+◌, nat_lt, if◌then◌else◌};
ghost use Rattle.graph.specs.WellFormed.{nodes_of, nodes};

use graph::{Graph, Shape};

/// Fewer nodes than these stand in a graph.
const TOO_MANY: u64 = 1_073_741_824;

/// For how many nodes an object of this shape counts.
fn nodes_of(shape: &Shape) -> u32
    ensures { result ≡ nodes_of shape.now }
{
    match shape.links() {
        None => 1,
        Some(links) => { if links.least == 0 { 1 } else { links.least } }
    }
}

/// How many nodes a graph has, dead objects included.
fn nodes(graph: &Graph) -> u64
    ensures nodes { result ≡ nodes graph.now }
    ensures few { result < 1073741824 }
{
    let count = graph.object_count();
    let mut total: u64 = 0;
    for key in 0..count {
        match graph.object(key) {
            None => unreachable!(),
            Some(object) => total += nodes_of(&object.shape) as u64,
        }
    }
    total
}

/// Whether the graph in which a node is split off from a segment of so many nodes at least has few enough nodes. It takes time in proportion to the objects.
pub(crate) fn has_room(graph: &Graph, least: u32) -> bool
    ensures { result ≡ nat_lt (nodes graph.now + (if nat_lt least 2 then 1 else 0)) 1073741824 }
{
    let more = if least < 2 { 1 } else { 0 };
    nodes(graph) + more < TOO_MANY
}
