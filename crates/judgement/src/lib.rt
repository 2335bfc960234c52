//! What is found of the runs of a program: its flow graph is made and analysed.
//!
//! The theorem of `predator` stands here. Where a verdict says that a program is safe, no run of it meets a fault; a fault that a verdict calls an error some run
//! meets; and where all was followed each fault of a run has a warning, but for accesses through any word. It knows no text: `verdicts` says which program a file holds.
#![tactic(auto)]

mod judgement;
mod judging;
pub mod laws;

pub use judgement::{Judgement, let_go_of_judgement};
pub use judging::judge;
