//! Steps on graphs that touch registers alone: constants, addresses of variables, moves, operations and conversions of integers, and values
//! from outside.
//!
//! Each call answers what an instruction of the flow machine makes of the states that a graph stands for: the graphs that stand for those that
//! follow, and what is lost. None meets a fault. `specs/Lines.antt` has a line for each instruction and each kind of value; the rest is one
//! theorem about a register that gets a value. The crate knows no points and edges of a flow graph, and reads no object.
#![tactic(auto)]

mod computing;
mod gaining;
mod held;
pub mod laws;
mod line;
mod moving;
mod steps;

pub use line::{Gain, Line};
pub use steps::{address, compute, convert, input, move_to, number, shift, shift_by};
