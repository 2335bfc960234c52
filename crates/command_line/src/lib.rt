//! The command line of the program: which words it takes, and what they ask for.
//!
//! It knows nothing of files, of C or of reports.
#![tactic(auto)]

mod command;
mod laws;
mod numbers;
mod parser;
mod replay;
mod replay_parser;

pub use command::{Command, command_of};
pub use laws::replay_examples_hold;
pub use replay::{ReplayCommand, replay_command_of};
