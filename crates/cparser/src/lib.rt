//! The reader of expressions, types, declarations, statements and items of C: a function for each rule of the grammar, and
//! what it writes of the tree that it reads.
//!
//! It knows how a row of tokens is gone through. It makes no trees, and does not know which rows the grammar spells.
#![tactic(auto)]

mod blocks;
mod braced;
mod braces;
mod brackets;
mod branches;
mod calls;
mod clauses;
mod declarations;
mod declarators;
mod enums;
mod fields;
mod grammar;
mod initializers;
mod items;
mod labels;
mod levels;
mod listed;
mod lists;
mod numbers;
mod offsets;
mod operands;
mod operators;
mod parameters;
mod peeks;
mod point;
mod postfixes;
mod reader;
mod reading;
mod sizes;
mod specifiers;
mod statement_ends;
mod statements;
mod status;
mod steps;
mod structs;
mod type_names;
mod types;
mod wanted;
mod written;
mod written_item;

pub use point::Point;
pub use reader::Reader;
pub use reading::{read_expression, read_item, read_statements};
pub use status::Status;
pub use wanted::Wanted;
pub use written::Written;
pub use written_item::WrittenItem;
