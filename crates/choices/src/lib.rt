//! The text in which a user writes the choices of a run: what the memory allocator and the outside world do.
//!
//! A text has one line for each choice, in the order in which the run takes them:
//!
//! - `none`: an allocation fails;
//! - `block BASE CONTENTS`: a new block lies at BASE and has these CONTENTS, two lower-case hexadecimal digits for each byte, or `-`
//!   where there is none;
//! - `input V`: an input is V.
//!
//! Numbers are decimal, of 64 bits and without leading zeros. [`choices_text`] writes such a text, and [`read_choices`] reads it back, or
//! says at which byte it is none. The crate knows nothing of C, of memory or of files.
#![tactic(auto)]

mod choice;
pub mod laws;
mod number;
mod part;
mod read;
mod reader;
mod refusal;
mod word;
mod write;

pub use choice::{Choice, MOST_CONTENTS};
pub use read::read_choices;
pub use refusal::{ReadChoices, Refusal};
pub use write::choices_text;
