//! What an initialiser of C sets, part by part, or what is refused in it first (C11 6.7.9).
//!
//! It walks over the parts in braces by reference, finds where in its object each of them stands, and hands on a store for each value. Expressions, and
//! the initialisers that lie in braces, are asked of the walk that is handed in.

mod constant;
mod filled;
mod next;
mod rows;
mod storing;
mod surplus;
mod testing;
mod walk;

pub use walk::initialiser;
