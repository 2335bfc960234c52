//! What nothing holds any more is taken out of a graph.
//!
//! A value goes that no edge, link, register or port holds, with its unequal pairs, and a dead object of which no address stays. A constant stays that a
//! held value is told apart from, since it tells something of that value. The graph stands for the same states as before. Nothing here knows C.
#![tactic(auto)]

mod keeping;
pub mod laws;
mod marks;
mod objects;
mod outcome;
mod values;

pub use outcome::{into_tidied, tidied};
