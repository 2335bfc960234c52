//! The analysis: the graphs that are derived from the start of a program along its edges, until nothing new comes.
//!
//! Each graph stands in a trail with the way in which it came about. Where a kept one at its point covers it, it is not followed.
#![tactic(auto)]

mod adding;
mod analysis;
mod calls;
mod chains;
mod expanding;
pub mod laws;
mod leaving;
mod looking;
mod mask;
mod masking;
mod noting;
mod ordering;
mod resting;
mod verdict;
mod widening;
mod work;

pub use analysis::analyse;
pub use trail::{Cause, Entry};
pub use verdict::{Limits, Verdict, Warning};
