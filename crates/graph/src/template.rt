ghost use Rattle.std.specs.Prelude.{◌≡◌, IfOk};

use crate::edges::Edges;
use cbase::{Boxed, NoMemory};
use planes::Plane;
use std::alloc::Global;
use std::marker::Model;

/// What is known of the bytes of each node of a segment.
#[derive(Drop)]
pub struct Node {
    /// What ranges of its bytes hold, its links aside, in the order of their places.
    pub edges: Edges,
    /// The class of each byte.
    pub plane: Plane,
}

/// A node behind a pointer, which contracts see as the node itself.
///
/// A shape holds it, so that a region is small, and whoever lets go of a shape lets go of the node by one call.
pub struct Template {
    node: Boxed<Node>,
}

impl Model for Template {
    ghost use Rattle.graph.specs.declared.template.Node.{Node};

    ghost Value = { Node };

    ghost view = { λ t. t.node };
}

impl Drop for Template {
    fn drop(self) {
        let Template { node } = self;
        drop(node);
    }
}

impl Template {
    /// The template with this node. Where memory is wanting the node is given up.
    pub fn new(alloc: Global, node: Node) -> Result<Template, NoMemory>
        ensures { IfOk result (λ template. template ≡ node) }
    {
        match Boxed::new(alloc, node) {
            Ok(node) => Ok(Template { node }),
            Err(error) => Err(error),
        }
    }

    /// The node. It takes no memory.
    pub fn get(&self) -> &Node
        ensures { result.now ≡ self.now }
    {
        self.node.get()
    }

    /// The node, taken out. It takes no memory.
    pub fn into_node(self) -> Node
        ensures { result ≡ self }
    {
        let Template { node } = self;
        node.into_inner()
    }
}
