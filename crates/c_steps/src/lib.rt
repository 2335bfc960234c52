//! The states of the source machine of C, and those of its steps that look at no tree (C11 5.1.2, 6.2.4, 6.5, 6.8, 7.22, 7.24).
//!
//! A [`State`] is what stands between two steps: what is to be done, the operands of unfinished expressions, the objects, the memory. It is generic in
//! expressions, statements and initialisers, which its steps only hand on. The crate knows no tree, no name and no text: what a tree makes room
//! for is said by the layer above. What operators and conversions make of words is said in [`words`].
#![tactic(auto)]

pub mod accesses;
pub mod branches;
pub mod built_ins;
pub mod choosing;
mod ends;
mod fault;
mod frames;
pub mod functions;
mod going_on;
pub mod laws;
pub mod leaving;
mod losses;
mod new_block;
pub mod operands;
mod outcome;
mod pending;
mod plain;
mod roots;
mod stack;
mod state;
mod statics;
mod tree;
pub mod updates;
pub mod words;

pub use ends::{BodyEnd, LoopEnd};
pub use losses::{finish, keep, leave_block};
pub use outcome::Outcome;
pub use pending::Choices;
pub use plain::plain_step;
pub use stack::Stack;
pub use state::State;
pub use statics::Statics;
pub use tree::Tree;
