//! What C computes on integers: their values, conversions, operators and comparisons.
//!
//! An integer is its bits, a `u64` below 2^n, of a [`Size`] with n bits and of a sign. What its bits stand for, and
//! what each call gives, is defined in `specs/` on whole numbers. Of a number with more bytes than its size the
//! lowest ones count. No call takes memory. The crate knows nothing of the names of types, of expressions, memory or
//! the text of a program.
#![tactic(auto)]

mod bits;
mod comparisons;
mod conversions;
mod divide;
pub mod laws;
mod op;
mod operators;
mod shift;
mod size;
mod unary;
mod wrapping;

pub use comparisons::{equal, less, less_equal};
pub use conversions::{convert, convert_to_truth};
pub use op::Op;
pub use operators::compute;
pub use size::Size;
pub use unary::{complement, negate};
