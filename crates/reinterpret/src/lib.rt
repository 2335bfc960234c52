//! Steps on graphs that read or write a value, or compare two.
//!
//! Each call answers what a step of the flow machine makes of the states that a graph stands for: graphs that stand for those that follow,
//! the faults that some of them meet, and what is lost. The crate knows one step, and no points and edges of a flow graph.
#![tactic(auto)]

mod comparison;
mod equality;
pub mod laws;
mod reads;
mod writes;

pub use equality::test_equal;
pub use reads::read;
pub use writes::write;
