//! Which type and value an expression of C has where it stands, or what is refused in it first (C11 6.3, 6.5 and 6.6), and what a type name is (6.7.7).
//!
//! It walks over trees by reference, and asks a context what names, tags and numbers of types stand for. The walk over what lies in a tree, statements
//! among it, is handed in. It knows nothing of tokens or of the text.
#![tactic(auto)]

mod checker;
mod context;
mod found;
mod handed_row;
mod known;
mod members;
mod named_type;
mod nodes;
mod part;
mod walk;

pub use checker::{Checker, Within};
pub use context::Context;
pub use found::Found;
pub use handed_row::HandedRow;
pub use known::Known;
pub use named_type::NamedType;
pub use nodes::first::{all_at, first_of, least, unless};
pub use part::{Part, Slot, Subject, Told};
pub use walk::sizes::{arrays_of, found_of_sizes, pointers_to};
pub use walk::type_names::declare;
