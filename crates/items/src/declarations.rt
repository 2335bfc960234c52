//! What is found of a declaration in a block (C11 6.7): of its words, of its names with their sizes and initialisers, and what it declares.
//!
//! It walks over trees by reference, and asks a context what is declared. The walk over what lies in a tree is handed in. It knows nothing of tokens or
//! of the text.

mod again;
mod alone;
mod complete;
mod declaring;
mod giving;
mod handing;
mod initialising;
mod objects;
mod telling;
mod types;
mod walk;

pub use again::{is_again, is_other};
pub use complete::is_complete;
pub use declaring::{declare_name, definition_by_now, seen_type, token_by_now};
pub use handing::hand_object;
pub use initialising::in_braces;
pub use objects::object_name;
pub use telling::told_fault;
pub use types::{found_of_name, given_type};
pub use walk::declaration;
