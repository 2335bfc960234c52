//! Reads a C program and a list of choices from two files, and says what a run of the program's source machine does with them: the answer about the bytes of
//! both, and the report of it.
//!
//! It knows how the parts hang together, and no operating system: files and the sink are given to it.
#![tactic(auto)]

mod answering;
mod judging;
mod playing;
mod top;

pub use top::{ReplayOutcome, replay};
