//! Forms of C that the grammar has no rule for and that are given up by name: where the first of them stands in an item.
//!
//! It looks at tokens alone, whether the grammar spells the item or not.
#![tactic(auto)]

mod before;
mod constructs;
mod found;
mod laws;
mod layout;
mod number;
mod packed;
mod part;

pub use constructs::first_construct;
pub use found::Found;
pub use laws::attributes_are_those_passed_over;
pub use layout::first_layout;
