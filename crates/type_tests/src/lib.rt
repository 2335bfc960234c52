//! Tests of the types that every crate speaks with: lists, texts, boxes and ranks of integers; and of names in scope.
//!
//! A crate with tests is proved twice, so those of `cbase` and of `environment` of `typing` stand here, where there is no other code.
#![tactic(auto)]

#[cfg(test)]
mod containers;
#[cfg(test)]
mod environments;
#[cfg(test)]
mod ranks;
