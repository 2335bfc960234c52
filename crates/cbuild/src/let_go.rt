//! Trees are let go of by one call each.
//!
//! A crate that lets go of a tree itself proves how each of the types that hold one another is let go of. So the crates above hand a tree back to these
//! calls where they need it no more, and leave none to the end of its scope.
use cbase::{Expr, Item, List, Stmt};

/// Lets go of an expression.
pub fn let_go_of_expression(tree: Expr) {
    drop(tree);
}

/// Lets go of declarations and statements.
pub fn let_go_of_statements(trees: List<Stmt>) {
    drop(trees);
}

/// Lets go of an item of a file.
pub fn let_go_of_item(tree: Item) {
    drop(tree);
}

/// Lets go of items of a file.
pub fn let_go_of_items(trees: List<Item>) {
    drop(trees);
}
