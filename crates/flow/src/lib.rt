//! The flow graph of a C program: points, edges with one instruction each, and what stands at each point.
//!
//! It answers whether data are a flow graph, how many walks there are within main, and which points are loop heads. The meaning
//! of the instructions is the flow machine of `specs/`. The crate knows nothing of the text or the trees of a program.
#![tactic(auto)]

mod after;
mod answer;
mod behind;
mod counting;
mod edges;
mod exclusive;
mod flow_graph;
mod heads;
mod initials;
mod instruction;
pub mod laws;
mod links;
pub mod machine_laws;
mod marking;
mod naming;
mod orders;
mod outs;
mod points;
mod range;
mod reading;
mod scopes;
mod separation;
mod sizes;
mod spreading;
mod standing;
mod walking;
mod well_formed;

pub use after::{registers_behind, stands_behind, variables_behind};
pub use answer::Walks;
pub use exclusive::{edges_by_point, is_exclusive};
pub use flow_graph::{
    Flow, FlowEdge, FlowFunction, Initial, InitialWord, Standing, Variable, Width,
};
pub use heads::is_head;
pub use instruction::Instr;
pub use outs::Out;
pub use range::is_in_range;
pub use walking::walks;
pub use well_formed::is_well_formed;
