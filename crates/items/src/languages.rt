//! When does one language of typing say of a text what another one says? Where a map of what is declared agrees with every look-up and with every change: then
//! what the one finds in a part of a text, the other finds in it too. And what does C say of a text? What the numbers of a context say, where each is read as
//! the type that it stands for.
//!
//! It knows the relation of `typing` and what a context declares, and must not know the trees' own numbers. It has no code: `specs/languages/CLanguage.antt` has the
//! language of C and `specs/languages/CBegin.antt` where a text begins, `specs/languages/Carries.antt` when a language carries over, `proofs/languages/Carried.antt` that what it finds does,
//! for every two languages, and the functions here are laws.

mod contexts;
mod laws;

pub use contexts::{
    built_ins_stand_in_front, c_finds_from_the_front, c_finds_what_contexts_find,
    contexts_carry_over, leads_back,
};
pub use laws::{each_language_carries_itself, what_is_found_carries_over};
