//! Which type and which value a constant has: an integer constant, or one of a character between quotes.
//!
//! It knows how constants are spelled and the ranges of types in both data layouts, and nothing of expressions, of
//! names or of places. No call takes memory, and each takes time in proportion to the bytes.

mod base;
mod digits;
mod integer;
mod integer_type;
pub mod laws;
mod letter;
mod meaning;
mod suffix;

pub use meaning::{Constant, Meaning, read_constant};
