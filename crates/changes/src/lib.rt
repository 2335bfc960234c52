//! What one change of a graph does to the memories that it stands for: another object at a key, another value in a range of an object's
//! bytes, a value more, another value in a register, an object more, one value in place of another, an object that dies.
//!
//! Each change is a change of a graph's parts. The same lemma leads from a state of the graph before to one of the graph behind, and back.
//! The crate says as well where an access through a value leads, and what is said of the states that follow a step. It knows no step.
#![tactic(auto)]

mod dying;
mod merge;
mod pairs;
mod post;
mod ranges;
mod reach;
mod registers;
mod values;
mod writing;

pub use dying::with_dead;
pub use merge::{merged, merged_key};
pub use pairs::{is_unequal_pair, with_unequal};
pub use post::{emptied_post, fault_post, with_graph, without_graph};
pub use ranges::{cuts_none, edges_around};
pub use reach::{Reach, is_excluded, reach_of};
pub use registers::{held_by, with_register, without_registers};
pub use values::with_value;
pub use writing::{class_for, is_zero, put_range, write_object};
