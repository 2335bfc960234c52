//! Which type an expression of C has where it stands, which statements, declarations and items of a file pass, and what is broken in
//! them first where they do not (C11 6.3, 6.5 to 6.9).
//!
//! It knows the trees of `cbase`, and of what is declared it asks: `specs/` has that relation, the types here are what it tells, and the functions are its laws.
//! What it stands on is here as code, too: types by numbers with the rules of operators ([`ctypes`]), which type and value constants have ([`constants`]), what is
//! computed of them ([`values`]), and which names are declared where ([`environment`]). None of these four knows a tree, and none but `values` another one.
#![tactic(auto)]

pub mod constants;
pub mod ctypes;
pub mod environment;
mod fault;
mod idiom;
mod laws;
mod rows;
mod size;
pub mod values;

pub use fault::Fault;
pub use idiom::Idiom;
pub use laws::{
    each_path_leads, expressions_have_one_outcome, items_have_one_outcome, one_thing_is_named,
    the_least_is_named,
};
pub use rows::{
    rows_of_braces, rows_of_declarations, rows_of_functions, rows_of_initialisers, rows_of_items,
    rows_of_names, rows_of_operators, rows_of_postfixes, rows_of_statement_expressions,
    rows_of_statements, rows_of_types,
};
pub use size::Size;
