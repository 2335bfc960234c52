//! Tests of the calls of a memory.
//!
//! A crate with tests is proved twice, so those of `bytes_core` stand here, where there is no other code.
#![tactic(auto)]

#[cfg(test)]
mod copies;
#[cfg(test)]
mod frees;
#[cfg(test)]
mod memories;
#[cfg(test)]
mod stores;
