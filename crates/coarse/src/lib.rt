//! Constants of a graph that are far from 0 are forgotten.
//!
//! A constant whose value, as an integer with a sign of its size, is beyond plus or minus a limit becomes some number of its size. Those that lie beyond an
//! end of a segment stay, since such a value has to be a constant or an address, and so do those of ports. The graph then stands for all states for
//! which it stood before, and there are few such graphs, so that a loop that counts comes to an end. Nothing here knows C.
#![tactic(auto)]

mod beyond;
pub mod laws;
mod marks;
mod outcome;
mod values;

pub use outcome::{coarse, is_coarse};
