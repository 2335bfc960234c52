//! Two neighbours of a list in a graph become one segment.
//!
//! Two live heap objects, each a region or a segment, are neighbours where the first one's link leads to the second, and, where nodes are linked both ways, the
//! second one's link leads back, and where they agree in all that is no link but for plain numbers. They are foldable where one segment in place of them makes a
//! graph. `foldable` finds the first two, and `apply` gives the graph in which they are one segment, which stands for all states for which the graph stands.
//! The crate knows no step, and not when a graph is folded.
#![tactic(auto)]

mod applying;
mod candidates;
mod deciding;
mod finding;
mod fold;
mod folding;
mod holders;
mod joined;
pub mod laws;
mod links;
mod neighbours;
mod standing;

pub use applying::apply;
pub use finding::foldable;
pub use fold::{Fold, Standing};
