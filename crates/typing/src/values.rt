//! What integer constant expressions compute: the value of an operation, where its operands have one (C11 6.6).
//!
//! It knows types of integers and their bits, and nothing of trees or names.

mod binary;
mod casting;
mod choosing;
mod condition;
mod converting;
mod counting;
mod enumerating;
mod unary;
mod whole;

pub use binary::binary_value;
pub use casting::{cast_value, offset_as, word_of};
pub use choosing::choice_value;
pub use counting::count_of;
pub use enumerating::{int_value, next_value};
pub use unary::unary_value;
pub use whole::is_whole;
