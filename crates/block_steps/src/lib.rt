//! Steps of graphs that make blocks, or release one.
//!
//! What does an allocation that gives a block, a scope that begins, or the release of a block make of the memories that a graph stands for?
//! Each answers with the graphs that stand for what follows, with the kinds of fault that some memory meets, and with what precision is
//! lost. `release_laws` has examples. Nothing here knows C, points or edges of flow graphs, and nothing accesses bytes.
#![tactic(auto)]

mod allocation;
mod entering;
mod freeing;
mod objects;
pub mod release_laws;
mod room;

pub use allocation::allocate;
pub use entering::enter;
pub use freeing::release;
