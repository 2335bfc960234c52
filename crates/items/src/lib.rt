//! What is found of an item of a file (C11 6.9): of a declaration outside of functions, and of a function with its body; and of what lies in it: of parameters,
//! of declarations in blocks, of initialisers and statements (C11 6.7, 6.8).
//!
//! It walks over trees by reference, and asks a context what is declared. A walk over one kind of part has the walk over what lies in it handed in, and
//! `tree_walk` puts them together. [`languages`] has the laws by which what is found with numbers is what C says. It knows nothing of tokens or of the text.
#![tactic(auto)]

mod beginning;
mod built_in_types;
mod built_ins;
mod complete;
mod declarations;
mod declaring;
mod definitions;
mod giving;
mod handing;
mod heads;
mod initialisers;
mod initialising;
pub mod languages;
mod names;
mod object;
mod objects;
mod parameters;
mod statements;
mod telling;
mod tree_walk;
mod walk;

pub use beginning::begin;
pub use tree_walk::{expression_found, item_found, statement_found};
