//! The items of a file: which rows of tokens spell declarations and definitions, with their trees, and what is answered of
//! one that is read behind others.
//!
//! It knows the names that an item leaves in scope, and not how an item is used, nor types of expressions.
#![tactic(auto)]

mod laws;
mod reading_item;
mod tables;
mod unread;

pub use laws::{
    each_row_is_one_item, expressions_are_numbered, items_have_one_reading, one_item_answer,
};
pub use reading_item::{ItemBehind, ItemRead, read_item};
pub use tables::table_of_items;
pub use unread::Unread;
