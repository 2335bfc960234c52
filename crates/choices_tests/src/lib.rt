//! Tests of texts of choices.
//!
//! A crate with tests is proved twice, so those of `choices` stand here, where there is no other code.
#![tactic(auto)]

#[cfg(test)]
mod reading;
#[cfg(test)]
mod refusing;
#[cfg(test)]
mod writing;
