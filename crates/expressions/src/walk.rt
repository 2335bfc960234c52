//! The walk over the parts of an expression and of a type name.

mod asking;
mod blocks;
mod calls;
mod enumerators;
mod expressions;
mod forms;
mod pieces;
mod several;
pub(crate) mod sizes;
mod struct_members;
pub(crate) mod type_names;
mod type_words;
