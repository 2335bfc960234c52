//! Trees of C from what a reader has written of them, part by part.
//!
//! It knows how a tree is made in memory, and neither the grammar nor what a name stands for.
#![tactic(auto)]

mod builder;
mod building;
mod declarations;
mod expressions;
mod fields;
mod item_trees;
mod items;
mod let_go;
mod operands;
mod pops;
mod stack;
mod statements;
mod texts;
mod trees;
mod types;
mod unbuilt;

pub use item_trees::{BuiltItem, build_item};
pub use let_go::{let_go_of_expression, let_go_of_item, let_go_of_items, let_go_of_statements};
pub use trees::{build_block, build_expr};
pub use unbuilt::Unbuilt;
