//! The source machine of C: what a program does, step by step, from what typing hands on of it (C11 5.1.2, 6.2 to 6.9).
//!
//! It says which state stands after each step, which choices a run takes, and which faults it meets where. It knows memory, and of a program
//! what stands in its trees and in the rows of typing. It asks for no name, no scope and no token. Its steps have no code here:
//! `specs/` has the definitions, with worked programs; the types here are those of which they speak, and the functions are laws.
#![tactic(auto)]

mod built_in;
pub mod examples;
mod kind;
pub mod laws;
mod object;
mod task;
mod variable;
mod whole_type;

pub use built_in::BuiltIn;
pub use kind::Kind;
pub use object::Object;
pub use task::Task;
pub use variable::Variable;
pub use whole_type::WholeType;
