//! What a tree of C makes room for where it is the first thing to do (C11 6.5, 6.8).
//!
//! Each function puts on the stack of a state exactly what the definitions of `c_machine` put there, for each program that the text stands for. It
//! looks at one layer of one tree, and pushes references to the trees below. What is done last is put there first.

mod address;
mod arguments;
mod assignments;
mod blocks;
mod branches;
mod calls;
mod declarations;
mod forms;
mod functions;
mod initialisers;
mod jumps;
mod kinds;
mod loads;
mod loops;
mod names;
mod operations;
mod pushes;
mod room;
mod state;
mod statements;
mod value;

pub use address::address_tasks;
pub use blocks::entered;
pub use branches::{branch_place, branch_tasks};
pub use functions::built_in;
pub use initialisers::initialiser_tasks;
pub use kinds::value_kind;
pub use loops::{again_tasks, is_for, test_tasks};
pub use room::Room;
pub use state::TreeState;
pub use statements::statement_tasks;
pub use value::value_tasks;
