//! Steps of graphs that give registers other values, and that look for lost blocks.
//!
//! `refuse`, `finish`, `leave` and `close` take a graph to the graphs that stand for the memories behind a step of the flow machine, with the kinds of
//! fault that some memory meets and what precision is lost. Nothing here knows C.
#![tactic(auto)]

mod anywhere;
mod closing;
mod emptying;
mod leaving;
mod look;
mod lost;
mod marks;

pub use anywhere::may_lead_anywhere;
pub use closing::close;
pub use emptying::{finish, refuse};
pub use leaving::leave;
pub use lost::unreached;
