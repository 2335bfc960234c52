//! The bridge between the flow machine and steps on graphs: what an edge of a flow graph does with what a graph sees of a state.
//!
//! `EdgeSteps` and `EdgeFaults` (`specs/EdgeSteps.antt`) have a line for each instruction but calls and returns: the relation against which the
//! step on graphs is proved. The law says that these are the steps and the faults of the machine, both ways. There is no code.
#![tactic(auto)]

pub mod laws;
