//! Whether the items that main needs pass: each is read and then checked, before the next is read, and the first that is refused is answered.
//!
//! It knows how items are read and what is found of them from the crates below. It knows nothing of files and reports, nor of what a program does when it
//! runs.
#![tactic(auto)]

mod checking;
mod items_checked;
mod laws;
mod program;
mod refusal;

pub use checking::{Checked, check};
pub use laws::items_have_one_answer;
pub use program::{TypedProgram, let_go_of_program};
pub use refusal::Refusal;
