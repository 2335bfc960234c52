//! Graphs in which some registers name no node of a segment.
//!
//! A register may hold the address of the first node of a segment, or of its last. The segment is split into its cases, and each of them in turn, until none of the
//! registers names a node of a segment. The graphs stand together for exactly the states of the graph. The crate knows no step.
#![tactic(auto)]

mod cases;
pub mod laws;
mod settling;

pub use settling::settled;
