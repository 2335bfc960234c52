//! Types of C as numbers in a table of shapes, where equal types have one number; and the rules of C's operators on them: what type an operation has, or
//! what is broken at it (C11 6.5).
//!
//! It knows how types are built from one another, and operands by their types and by what is said of them, and nothing of names, of scopes or of trees.

mod assigning;
mod binary;
mod casting;
mod choosing;
mod completing;
mod found;
mod integers;
mod interning;
mod kind;
mod laws;
mod laying;
mod measure;
mod members;
mod operand;
mod operator_laws;
mod operator_rows;
mod shape;
mod structs;
mod types;
mod unary;

pub use assigning::{assignment_type, update_type};
pub use binary::{Group, binary_type};
pub use casting::{cast_type, converts, is_condition};
pub use choosing::choice_type;
pub use found::{Broken, Outcome};
pub use integers::integer_type;
pub use kind::{IntegerType, Target};
pub use members::{index_type, member_type, pointed_member_type};
pub use operand::Operand;
pub use operator_laws::{
    bytes_say_what_ranks_say, complete_types_have_sizes, conversions_are_settled,
    demands_stand_in_order, one_answer_is_given, one_thing_is_found, types_have_kinds,
};
pub use operator_rows::{
    rows_of_binary_operators, rows_of_choices, rows_of_conversions, rows_of_integers,
    rows_of_unary_operators,
};
pub use shape::Shape;
pub use structs::{Member, MemberAt};
pub use types::Types;
pub use unary::{count_type, sizeof_type, unary_type};
