//! Plain programs: those whose flow graph is plain, has no call and is small. Where few walks lead on in it, what is found of the program is exact.
//!
//! `specs/Programs.antt` has what is asked of a program and what is found of it, `specs/Example.antt` one that is plain. There is no code.
#![tactic(auto)]

pub mod laws;
