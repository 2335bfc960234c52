//! Pointers that are moved.
ghost use Rattle.std.specs.Prelude.{◌≡◌, ℤ, pos, ◌*ℤ◌};
ghost use Rattle.arithmetic.specs.Value.{value};
ghost use Rattle.bytes_core.specs.Value.{address_number, moved, wrapped};
ghost use Rattle.c_machine.specs.Words.{moved_by};

use crate::words::conversion::as_number;
use bytes_core::{Memory, Word};
use c_machine::WholeType;

/// A word that is moved forwards by so many bytes (C11 6.5.6p8). An offset wraps as a 64-bit number with a sign, a number modulo 2^64.
pub fn moved(word: Word, bytes: u64) -> Word
    ensures { result ≡ moved word (pos bytes) }
{
    moved_on(word, bytes)
}

/// A pointer to items of so many bytes that is moved by an integer: by the number of its own value, times these bytes, forwards or
/// backwards (C11 6.5.6p8).
#[tactic(auto, using(crate::proofs::words::Moves::backwards))]
pub fn moved_by(
    memory: &Memory,
    bytes: u64,
    pointer: Word,
    of: WholeType,
    number: Word,
    forwards: bool,
) -> Word
    ensures { result ≡ moved_by memory.now bytes pointer of number forwards }
{
    let step = scaled(of, memory.address(number), bytes);
    if forwards {
        moved_on(pointer, step)
    } else {
        moved_on(pointer, step.wrapping_neg())
    }
}

/// The value of an integer times a number of bytes, modulo 2^64.
#[tactic(auto, using(crate::proofs::words::Moves::scaled))]
fn scaled(of: WholeType, number: u64, bytes: u64) -> u64
    ensures { result ≡ wrapped (value of.bytes of.signed number *ℤ pos bytes) }
{
    as_number(of, number).wrapping_mul(bytes)
}

/// A word that is moved by a number of bytes with a sign, which is given modulo 2^64.
#[tactic(auto, using(crate::proofs::words::Moves::plain_moved, crate::proofs::words::Moves::offset_moved))]
fn moved_on(word: Word, step: u64) -> Word
    ensures { (bytes : ℤ) → wrapped bytes ≡ step → result ≡ moved word bytes }
{
    match word {
        Word::Plain(number) => Word::Plain(number.wrapping_add(step)),
        Word::To { block, offset } => Word::To {
            block,
            offset: offset.cast_unsigned().wrapping_add(step).cast_signed(),
        },
    }
}
