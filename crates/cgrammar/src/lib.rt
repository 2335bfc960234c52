//! Which expressions, types, declarations, statements and blocks the tokens of a text spell, and their trees.
//!
//! It knows the grammar and which names are typedefs, and no types of expressions.
#![tactic(auto)]

mod basic;
mod basic_words;
mod bounds;
mod closers;
mod constants;
mod label;
mod laws;
mod left_out;
mod names;
mod numbers;
mod operators;
mod reading;
mod rows;
mod scope;
mod stars;
mod storage;
mod tables;
mod terminal;
mod terminals;
mod texts;
mod typedefs;

pub use basic_words::{BasicWords, read_basic_words};
pub use closers::matched_length;
pub use label::begins_with_label;
pub use laws::{
    declared_names_are_found, each_row_has_one_tree, first_tokens, labels_are_told_apart,
    numbers_are_consecutive, scopes_are_kept, types_are_told_apart,
};
pub use reading::operand::Operand;
pub use reading::specifiers::Specifiers;
pub use reading::starts::{
    OperandStart, PostfixStart, StatementStart, TypeStart, begins_declaration, begins_type,
    operand_start, postfix_start, statement_start, type_start,
};
pub use rows::{rows_of_expressions, rows_of_statements, rows_of_texts};
pub use scope::Scope;
pub use stars::stars_length;
pub use storage::declares_typedef;
pub use tables::{tables_of_blocks, tables_of_expressions};
pub use terminal::{Terminal, terminal_of};
pub use terminals::{row_of, row_of_part};
pub use texts::{entry_of, is_one_of};
