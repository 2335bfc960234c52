//! What is found at an expression itself, of what is known of its parts.

pub(crate) mod arguments;
pub(crate) mod assigning;
pub(crate) mod calling;
pub(crate) mod casting;
pub(crate) mod choosing;
pub(crate) mod constant;
pub(crate) mod declared_members;
pub(crate) mod finishing;
pub(crate) mod first;
pub(crate) mod members;
pub(crate) mod names;
pub(crate) mod offsets;
pub(crate) mod operations;
pub(crate) mod shapes;
pub(crate) mod sizes;
