//! Reads a C program from a file and says whether a run of it can misuse memory: the verdict about the file's bytes, and the
//! report of it.
//!
//! It knows how the parts hang together, and no operating system: files and the sink are given to it.
#![tactic(auto)]

mod found;
mod judge;
mod laws;
mod places;
mod top;

pub use laws::{constructs_are_printed, kinds_are_printed};
pub use places::place_at;
pub use top::{Outcome, predator};
