//! Which names with linkage a whole text defines (C11 6.9p5), asked of its tokens alone.
//!
//! So it is known before any item is read, whatever the order of the text, whether a name that is used has a definition,
//! and whether the text itself gives a built-in function a body. The crate knows keywords, brackets and which words are
//! passed over, and which names an item with `typedef` declares; it knows no types and no scopes.
#![tactic(auto)]

mod definitions_of;
mod form;
mod found;
mod names;
mod role;
mod row;
mod sign;
mod steps;
mod tables;
mod typedefs;

pub use definitions_of::definitions;
pub use found::Definitions;
