//! Alike states go alike: where a graph stands for a state, and the post of an edge names no loss, each state that is alike goes along the edge to one that is
//! alike what follows; and alike states meet the same faults.
//!
//! Alike states differ in the numbers of blocks, in where dead blocks lie and in what lies in them. There is no code.
#![tactic(auto)]

pub mod laws;
