//! What stands directly in each kind of part, put in front of the parts that are still to be looked at, in order.

pub mod expr;
pub mod init;
pub mod item;
pub mod list;
pub mod name;
pub mod node;
pub mod single;
pub mod spec;
pub mod stmt;
