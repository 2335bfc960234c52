//! Values of one type as values of another.
ghost use Rattle.std.specs.Prelude.{◌≡◌, ℕ};
ghost use Rattle.arithmetic.specs.Conversion.{converted};
ghost use Rattle.bytes_core.specs.Value.{address_number};
ghost use Rattle.typing.specs.values.Values.{as_type, offset_as};
ghost use Rattle.c_machine.specs.Words.{as_kind, integer_as, is_same};
ghost use Rattle.c_steps.specs.words.Integers.{integer_from};

use arithmetic::{Size, convert, convert_to_truth};
use bytes_core::{Memory, Word};
use c_machine::{Kind, WholeType};

/// A value of one type as one of another (C11 6.3p2, 6.3.1.2, 6.3.1.3, 6.3.2.3).
///
/// Pointers convert as they are; as an integer a pointer is its address number. What becomes `void` is let go of, and 0 stands for it.
pub fn as_kind(memory: &Memory, from: Kind, to: Kind, word: Word) -> Word
    ensures { result ≡ as_kind memory.now from to word }
{
    match to {
        Kind::Void => Word::Plain(0),
        Kind::Integer(to) => Word::Plain(as_integer(from, to, memory.address(word))),
        Kind::Pointer(_) => as_pointer(memory, from, word),
        Kind::Array(_) | Kind::Struct(_) => word,
    }
}

/// The bits of a value of a type as an integer of another one, where they are known.
fn as_integer(from: Kind, to: WholeType, bits: u64) -> u64
    ensures { result ≡ integer_from from to bits }
{
    match from {
        Kind::Integer(from) => integer_as(from, to, bits),
        Kind::Pointer(_) | Kind::Array(_) | Kind::Struct(_) | Kind::Void => offset_as(to, bits),
    }
}

/// An integer of one type as one of another. To its own type it stays as it is, also a byte of `_Bool` that is neither 0 nor 1 (C11 6.3p2).
fn integer_as(from: WholeType, to: WholeType, bits: u64) -> u64
    ensures { result ≡ integer_as from to bits }
{
    if is_same(from, to) {
        bits
    } else {
        as_type(from, to, bits)
    }
}

/// Whether two types of integers are one.
fn is_same(from: WholeType, to: WholeType) -> bool
    ensures { result ≡ is_same from to }
{
    let (from, to) = (from.get(), to.get());
    from.bytes == to.bytes && from.signed == to.signed && from.truth == to.truth
}

/// An integer of one type as one of another (C11 6.3.1.2, 6.3.1.3).
fn as_type(from: WholeType, to: WholeType, bits: u64) -> u64
    ensures { result ≡ as_type from to bits }
{
    if to.get().truth {
        convert_to_truth(from.size(), bits)
    } else {
        convert(from.size(), from.get().signed, to.size(), bits)
    }
}

/// An address number as an integer of a type (C11 6.3.1.2, 6.3.2.3p6).
fn offset_as(to: WholeType, number: u64) -> u64
    ensures { result ≡ offset_as to number }
{
    if to.get().truth {
        convert_to_truth(Size::Eight, number)
    } else {
        convert(Size::Eight, false, to.size(), number)
    }
}

/// A value of a type as a pointer (C11 6.3.2.3p5).
fn as_pointer(memory: &Memory, from: Kind, word: Word) -> Word
    ensures { (bytes : ℕ) → result ≡ as_kind memory.now from (Kind.Pointer bytes) word }
{
    match from {
        Kind::Integer(from) => Word::Plain(as_number(from, memory.address(word))),
        Kind::Pointer(_) | Kind::Array(_) | Kind::Struct(_) | Kind::Void => word,
    }
}

/// The value of an integer as a number of 64 bits, which wraps.
pub(crate) fn as_number(of: WholeType, bits: u64) -> u64
    ensures { result ≡ converted of.bytes of.signed 8 bits }
{
    convert(of.size(), of.get().signed, Size::Eight, bits)
}
