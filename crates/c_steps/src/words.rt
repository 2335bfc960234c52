//! What operators and conversions of C make of words in a memory (C11 6.3, 6.5).
//!
//! Each function gives what a definition of the source machine says. It knows types by what an access and an operator ask of them, and
//! nothing of programs, states or steps. No call takes memory.

mod binary;
mod conversion;
mod input;
mod kinds;
mod moving;
mod truth;
mod unary;

pub use binary::operated;
pub use conversion::as_kind;
pub use input::is_input;
pub use kinds::{decayed, is_pointer, kind_after, scalar_bytes};
pub use moving::{moved, moved_by};
pub use truth::{is_true, told};
pub use unary::applied;
