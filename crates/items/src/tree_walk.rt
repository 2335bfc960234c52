//! What is found of an expression, of a statement or a declaration in a block, and of an item of the file, of a tree of at most 1,024 levels: the walks
//! over each kind of part, put together.
//!
//! It knows nothing of tokens or of the text.

mod walking;

pub use walking::{expression_found, item_found, statement_found};
