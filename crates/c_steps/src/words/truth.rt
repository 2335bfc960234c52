//! Conditions and their values.
ghost use Rattle.std.specs.Prelude.{◌≡◌};
ghost use Rattle.c_machine.specs.Words.{is_true, told};

use bytes_core::{Memory, Word};

/// Whether a value is true: it is not 0 as it is, and a pointer by its address number (C11 6.5.3.3p5, 6.5.9).
pub fn is_true(memory: &Memory, word: Word) -> bool
    ensures { result ≡ is_true memory.now word }
{
    memory.address(word) != 0
}

/// The int 1 where a value is true, and 0 where it is not; or the other way round, where it is asked whether it is 0.
pub fn told(truth: bool, holds: bool) -> Word
    ensures { result ≡ told truth holds }
{
    Word::Plain(u64::from(truth == holds))
}
