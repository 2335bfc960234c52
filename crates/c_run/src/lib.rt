//! Steps and runs of the source machine of C, and how a run starts: with the objects that live as long as it runs, and then main (C11 5.1.2.3, 5.1.2p1,
//! 5.1.2.2.1, 6.2.4p3).
//!
//! A step takes the first thing to do off a state and does it, as the definitions of `c_machine` say, for each program that the text stands for. What a
//! tree makes room for is said in `tasks`, and all else is done by `c_steps`: the modules beside them say which of them is asked. What the items of a
//! program hold, and what typing says of the parts of a program, is said in `c_text`.
#![tactic(auto)]

mod beginning;
mod bodies;
mod calling;
mod conditions;
mod doing;
mod finishing;
mod jumps;
mod program_run;
mod running;
mod starting;
mod stepped;
mod stepping;
mod tasks;
mod trees;

pub use beginning::{Started, start};
pub use program_run::run_program;
pub use running::run;
pub use starting::{main_tasks, static_tasks};
pub use stepped::Stepped;
pub use stepping::step;
