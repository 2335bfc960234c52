//! What a reader of C writes of the tree that it reads, and which trees that makes.
//!
//! It knows which parts a tree is made of, and neither the grammar nor what a name stands for.
#![tactic(auto)]

mod event;
mod piece;
mod tokens_at;

pub use event::Event;
pub use piece::Piece;
pub use tokens_at::{bytes_at, place_at};
