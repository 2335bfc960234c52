//! What an object says of the bytes of its block, or of those of each of its nodes.
ghost use Rattle.std.specs.Prelude.{◌≡◌};
ghost use Rattle.graph.specs.Nodes.{node_of};

use graph::{HasValue, Object, Shape};
use planes::Plane;

/// What ranges of the bytes hold.
pub(crate) fn edges_of(object: &Object) -> &[HasValue]
    ensures { result.now ≡ (node_of object.now).edges }
{
    match &object.shape {
        Shape::Region => object.edges.as_slice(),
        Shape::Segment { node, .. } => node.get().edges.as_slice(),
    }
}

/// The classes of the bytes.
pub(crate) fn plane_of(object: &Object) -> &Plane
    ensures { result.now ≡ (node_of object.now).plane }
{
    match &object.shape {
        Shape::Region => &object.plane,
        Shape::Segment { node, .. } => &node.get().plane,
    }
}
