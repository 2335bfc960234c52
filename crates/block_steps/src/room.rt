//! Whether more objects may stand in a graph.
ghost use Rattle.std.specs.Prelude.{◌≡◌, ◌<◌};
ghost use Rattle.graph.specs.WellFormed.{nodes_of, nodes};
ghost use Rattle.block_steps.specs.Blocks.{has_room};

use graph::{Graph, Shape};

/// Fewer nodes than these stand in a graph.
const TOO_MANY: u64 = 1_073_741_824;

/// For how many nodes an object of this shape counts.
fn nodes_of(shape: &Shape) -> u32
    ensures { result ≡ nodes_of shape.now }
{
    match shape.links() {
        None => 1,
        Some(links) => { if links.least == 0 { 1 } else { links.least } }
    }
}

/// How many nodes a graph has, dead objects included.
fn nodes(graph: &Graph) -> u64
    ensures nodes { result ≡ nodes graph.now }
    ensures few { result < 1073741824 }
{
    let count = graph.object_count();
    let mut total: u64 = 0;
    for key in 0..count {
        match graph.object(key) {
            None => unreachable!(),
            Some(object) => total += nodes_of(&object.shape) as u64,
        }
    }
    total
}

/// Whether so many objects more may stand in a graph. It takes time in proportion to the objects.
pub(crate) fn has_room(graph: &Graph, count: usize) -> bool
    ensures { result ≡ has_room graph.now count }
{
    (count as u64) < TOO_MANY - nodes(graph)
}
