//! Steps on graphs that change ranges of bytes.
//!
//! `fill` and `copy` take a graph to those that stand for the memories behind a fill with one number, or behind a copy, with the kinds of
//! fault that some memory meets and what precision is lost. `copy_laws` has examples. Nothing here knows C, or points and edges of a flow
//! graph.
#![tactic(auto)]

mod bare;
mod copies;
pub mod copy_laws;
mod fills;
mod losses;
mod moved;
mod overlaps;
mod writing;

pub use copies::copy;
pub use fills::fill;
