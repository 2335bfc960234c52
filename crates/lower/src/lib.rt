//! The flow graph of a program of C, made of the program that a text stands for.
//!
//! The crate `lowering` says which graph that is: its lines say what each form gives, and here they are placed between points, over a stack of jobs. `lower` makes
//! the graph.
#![tactic(auto)]

pub mod around;
pub mod builder;
mod functions;
mod graph;
mod initials;
pub mod jobs;
mod placing;
mod program;
mod running;

pub use builder::Builder;
pub use program::lower;
