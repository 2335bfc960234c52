//! Planes: what is known of each byte of an object.
//!
//! A byte has class 0 where it is known to be the number 0, class 1 where it is known to be a number, and class 2
//! where nothing is known of it. A [`Plane`] has a class for each byte of an object, and contracts see it as the list
//! of these classes. It is kept as one byte for each of them; what goes through many of them goes through vectors of
//! 32 first, and then through the rest byte by byte.
//!
//! The crate knows no objects, no values and no memory.
#![tactic(auto)]

mod change;
mod class;
pub mod laws;
mod plane;
mod search;

pub use class::{ANYTHING, MOST_BYTES, NUMBER, ZERO};
pub use plane::Plane;
