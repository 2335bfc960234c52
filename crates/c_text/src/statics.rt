//! What stands in a program before its main begins: the initialisers of objects that live as long as the program runs, wherever these stand in the text
//! (C11 5.1.2p1, 6.2.4p3).
//!
//! It goes through the trees of all items by a list of parts that are still to be looked at, and so needs no stack for deep ones. It knows of typing only which names
//! declare such objects. It knows nothing of states, steps and values.

mod node;
mod noted;
mod notes;
mod parts;
mod set;
mod statics;
mod walk;

pub use set::StaticSet;
pub use statics::{StaticSets, static_sets};
