//! Segments of a graph split into the cases that they may be.
//!
//! A segment that may have no nodes is dropped: the graph without it stands for exactly the states for which the graph stands without a node of the segment.
//! Its first node becomes a region of its own (`first_node`), and where nodes are linked both ways its last one (`last_node`): graphs with the variables,
//! registers and ports of the one that is split, which stand together for exactly its states. The crate knows no step.
#![tactic(auto)]

mod beyond;
mod cases;
mod dropped;
mod first;
mod last;
mod last_cases;
pub mod laws;
mod links;
mod offsets;
mod own_addresses;
mod rest;
mod rest_before;
mod room;

pub use cases::{first_node, is_segment};
pub use dropped::{drop_segment, may_be_empty};
pub use last_cases::{is_twofold, last_node};
pub use offsets::offsets_fit;
