//! What is found of a statement of C where it stands: it passes, or what is refused in it first (C11 6.8).
//!
//! It walks over statements by reference. Expressions, blocks and declarations are walked elsewhere, and the statements that lie in a
//! statement by the walk that is handed in. It knows nothing of tokens or of the text.

mod blocks;
mod branches;
mod demands;
mod forms;
mod jumps;
mod loops;
mod taken;

pub use forms::statement;
