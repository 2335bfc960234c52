//! Reads expressions and blocks of C into trees, exactly where the grammar spells one.
//!
//! It knows how the steps of the reader and the grammar hang together, and no types of expressions.
#![tactic(auto)]

mod blocks;
mod ends;
mod expressions;
mod front;
mod laws;

pub use blocks::{ReadBlock, read_block};
pub use cgrammar::Scope;
pub use expressions::{ReadExpr, read_expr};
pub use laws::{blocks_are_written_exactly, expressions_are_written_exactly};
