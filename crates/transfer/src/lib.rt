//! Posts of edges: what an edge of a flow graph makes of the memories that a graph stands for.
//!
//! An edge is one instruction, and each instruction but calls and returns has a step on graphs in a crate below. This crate chooses it, and shows
//! that what it asks for is there where the graph fits the point: it names the variables and holds the registers that stand there, in their sizes. A step asks that
//! the registers through which it goes name no segment: so segments that they name are split first, and the posts of all cases are put together.
#![tactic(auto)]

mod along;
mod edge;
mod ending;
mod initials;
mod instruction;
pub mod laws;
mod sizes;
mod starting;
mod statics;
mod through;
mod together;

pub use edge::post;
pub use starting::start;
