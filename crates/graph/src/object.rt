ghost use Rattle.std.specs.Prelude.{◌≡◌};
ghost use Rattle.graph.specs.Nodes.{links_in};

use crate::edges::Edges;
use crate::template::Template;
use bytes_core::BlockKind;
use planes::Plane;

/// What an object stands for.
#[derive(Drop)]
pub enum Shape {
    /// One block.
    Region,
    /// A list of blocks of one size, its nodes, each linked to the next one, and where it is linked both ways to the one before.
    ///
    /// In a list of the Linux kernel both links lead to the link of the other node; in the lists of sys/queue.h the link back
    /// leads to the field of the node before that holds its link.
    Segment {
        /// Whether each node holds a link to the one before as well.
        twofold: bool,
        /// At which place in a node the links to it lead that come from the node before.
        head: u32,
        /// The first of the eight bytes of a node that hold the link to the next one.
        next: u32,
        /// The first of the eight bytes of a node that hold the link to the one before; 0 where there is none.
        prev: u32,
        /// At which place in a node the links to it lead that come from the next node; 0 where there is none.
        back: u32,
        /// How many nodes there are at least.
        least: u32,
        /// The key of the value that the last node holds as its link.
        next_value: u32,
        /// The key of the value that the first node holds as its link back.
        prev_value: u32,
        /// What is known of each node.
        node: Template,
    },
}

/// How the nodes of a segment are linked, as its fields say it.
#[derive(Clone, Copy, PartialEq, Eq)]
pub struct Links {
    pub twofold: bool,
    pub head: u32,
    pub next: u32,
    pub prev: u32,
    pub back: u32,
    pub least: u32,
    pub next_value: u32,
    pub prev_value: u32,
}

impl Shape {
    /// How the nodes of a segment are linked. None exactly for a region. It takes no memory.
    pub fn links(&self) -> Option<Links>
        ensures { result ≡ links_in self.now }
    {
        match self {
            Shape::Region => None,
            Shape::Segment {
                twofold,
                head,
                next,
                prev,
                back,
                least,
                next_value,
                prev_value,
                node: _,
            } => Some(Links {
                twofold: *twofold,
                head: *head,
                next: *next,
                prev: *prev,
                back: *back,
                least: *least,
                next_value: *next_value,
                prev_value: *prev_value,
            }),
        }
    }
}

/// An object of a graph.
#[derive(Drop)]
pub struct Object {
    /// How many bytes its block has, or each of its nodes. Of a dead object it says nothing.
    pub size: u32,
    /// How the storage of its blocks ends.
    pub kind: BlockKind,
    /// Whether its blocks may be accessed.
    pub live: bool,
    /// What it stands for.
    pub shape: Shape,
    /// What ranges of the bytes of a region hold, in the order of their places. A segment and a dead object have none.
    pub edges: Edges,
    /// The class of each byte of a region: 0 where it is the number 0, 1 where it is a number, 2 always. That of a segment and of a
    /// dead object is empty.
    pub plane: Plane,
}
