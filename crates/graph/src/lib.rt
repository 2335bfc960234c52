//! What the analyser knows of a memory: a graph of objects and values that stands for many memories.
//!
//! An object stands for a block, a value for a word. The crate says which graphs are well formed, which
//! memories a graph stands for, and how a graph is built from plain data and taken apart again. It knows bytes,
//! words and blocks, and nothing of C: no statement, no step and no fault.
#![tactic(auto)]

mod addressed;
mod ascending;
mod build;
mod contents;
mod copies;
mod different;
mod disjoint;
mod distinct;
mod edges;
mod ends;
mod graph;
mod keyed;
mod large;
pub mod laws;
mod link_points;
mod look_up;
pub mod memory_laws;
mod moves;
mod object;
mod object_points;
mod parts;
mod places;
mod points;
mod post;
pub mod segment_laws;
mod sizes;
mod template;
mod value;

pub use build::{built, graph_of};
pub use contents::{Objects, Values};
pub use edges::{Edges, HasValue};
pub use graph::Graph;
pub use keyed::Keyed;
pub use large::{LARGE, LARGE_WITHIN_A_STEP};
pub use object::{Links, Object, Shape};
pub use parts::{Held, KeyedObject, KeyedValue, Named, Pair, Parts};
pub use post::Post;
pub use template::{Node, Template};
pub use value::{Target, Value};
