//! What the syntax trees of C hold, as definitions: how deep trees are, how many expressions stand in them and which numbers these
//! have.
//!
//! It knows the trees of `cbase`, and no tokens. It has no code: `specs/` has the definitions, which the grammar and
//! the contracts of its readers cite.
#![tactic(auto)]
