//! Tests of the files and sinks at the program's edge which no row of `edge_rows` shows: those of the system, and such as fail in mid-stream.
//!
//! A crate with tests is proved twice, so those of `outside` stand here, where there is no other code.
#![tactic(auto)]

#[cfg(test)]
mod files;
