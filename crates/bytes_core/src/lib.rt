//! The memory of a C program: bytes, blocks, words, and what an access, a fill, a copy, an allocation and a free
//! do with them.
//!
//! A [`Memory`] is seen as the list of its blocks. Each call of it does exactly what a definition of `specs/` says, for
//! the whole language; the laws of these definitions are in [`laws`]. The crate knows nothing of expressions,
//! statements or the text of a program.
#![tactic(auto)]

mod access;
mod block;
mod byte;
mod copying;
mod fault;
mod index;
pub mod laws;
mod live;
mod loss;
mod memory;
mod placement;
mod release;
mod value;
mod word;
mod writing;

pub use block::{Block, BlockKind};
pub use byte::Byte;
pub use memory::Memory;
pub use word::Word;
