//! What a program of C does beside what its flow graph does: runs of the source machine that stand at a point of a flow graph.
#![tactic(auto)]

pub mod laws;
