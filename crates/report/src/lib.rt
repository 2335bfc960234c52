//! What `predator` answers, and what is printed of each answer.
//!
//! It knows places, kinds of faults and limits, and nothing of how an answer is found.
#![tactic(auto)]

mod answer;
mod construct;
mod exit_status;
mod kind;
mod limits;
mod lines;
mod replay_answer;
mod replay_report;
mod text;
mod warning;

pub use answer::{Answer, Shown, Why};
pub use exit_status::status;
pub use limits::Limits;
pub use replay_answer::{ReplayAnswer, ReplayShown, Replayed};
pub use replay_report::{replay_status, replay_text};
pub use text::report_text;
pub use warning::Warning;
