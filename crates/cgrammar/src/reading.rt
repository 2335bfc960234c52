//! What a reader tells by the first token, and what the reader of `specs/Reader.antt` gives.

pub mod operand;
pub mod specifiers;
pub mod starts;
