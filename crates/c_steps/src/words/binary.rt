//! Binary operators.
ghost use Rattle.std.specs.Prelude.{◌≡◌};
ghost use Rattle.bytes_core.specs.Value.{is_same_address};
ghost use Rattle.typing.specs.values.Values.{of_binary};
ghost use Rattle.c_machine.specs.Words.{as_address, operated};
ghost use Rattle.c_steps.specs.words.Compared.{compared};

use crate::words::conversion::as_number;
use crate::words::moving::moved_by;
use crate::words::truth::told;
use bytes_core::{Memory, Word};
use c_machine::{Kind, WholeType};
use cbase::BinaryOp;
use typing::values::binary_value;

/// What a binary operator makes of two values (C11 6.5.5 to 6.5.12). Pointers are compared by their address numbers (C11 6.5.9).
///
/// It is `None` where there is no value: for a zero divisor, for a shift by a negative amount or by the width or more, and where the
/// operator makes nothing of values of the types.
pub fn operated(
    memory: &Memory,
    op: BinaryOp,
    left: Kind,
    right: Kind,
    one: Word,
    other: Word,
) -> Option<Word>
    ensures { result ≡ operated memory.now op left right one other }
{
    match left {
        Kind::Integer(left) => behind_integer(memory, op, left, right, one, other),
        Kind::Pointer(bytes) => behind_pointer(memory, op, bytes, right, one, other),
        Kind::Array(_) | Kind::Struct(_) | Kind::Void => {
            compared(memory, op, one, as_address(memory, right, other))
        }
    }
}

/// A value beside a pointer that it is compared with: an integer becomes an address, by its own sign (C11 6.5.9p5).
fn as_address(memory: &Memory, kind: Kind, word: Word) -> Word
    ensures { result ≡ as_address memory.now kind word }
{
    match kind {
        Kind::Integer(of) => number_as_address(memory, of, word),
        Kind::Pointer(_) | Kind::Array(_) | Kind::Struct(_) | Kind::Void => word,
    }
}

/// An integer of a type as an address.
fn number_as_address(memory: &Memory, of: WholeType, word: Word) -> Word
    ensures { result ≡ as_address memory.now (Kind.Integer of) word }
{
    Word::Plain(as_number(of, memory.address(word)))
}

/// What a binary operator makes of an integer and of a value.
fn behind_integer(
    memory: &Memory,
    op: BinaryOp,
    left: WholeType,
    right: Kind,
    one: Word,
    other: Word,
) -> Option<Word>
    ensures { result ≡ operated memory.now op (Kind.Integer left) right one other }
{
    match right {
        Kind::Integer(right) => {
            let (x, y) = (memory.address(one), memory.address(other));
            of_integers(op, left, x, right, y).map(Word::Plain)
        }
        Kind::Pointer(bytes) => match op {
            BinaryOp::Add => Some(moved_by(memory, bytes, other, left, one, true)),
            _ => compared(memory, op, number_as_address(memory, left, one), other),
        },
        Kind::Array(_) | Kind::Struct(_) | Kind::Void => {
            compared(memory, op, number_as_address(memory, left, one), other)
        }
    }
}

/// What a binary operator makes of a pointer to items of so many bytes and of a value.
fn behind_pointer(
    memory: &Memory,
    op: BinaryOp,
    bytes: u64,
    right: Kind,
    one: Word,
    other: Word,
) -> Option<Word>
    ensures { result ≡ operated memory.now op (Kind.Pointer bytes) right one other }
{
    match right {
        Kind::Integer(right) => match op {
            BinaryOp::Add => Some(moved_by(memory, bytes, one, right, other, true)),
            BinaryOp::Sub => Some(moved_by(memory, bytes, one, right, other, false)),
            _ => compared(memory, op, one, number_as_address(memory, right, other)),
        },
        Kind::Pointer(_) | Kind::Array(_) | Kind::Struct(_) | Kind::Void => {
            compared(memory, op, one, other)
        }
    }
}

/// What an operator makes of two values where it only compares them by their address numbers (C11 6.5.9).
fn compared(memory: &Memory, op: BinaryOp, one: Word, other: Word) -> Option<Word>
    ensures { result ≡ compared memory.now op one other }
{
    match op {
        BinaryOp::Equal => Some(told(true, is_same_address(memory, one, other))),
        BinaryOp::NotEqual => Some(told(false, is_same_address(memory, one, other))),
        _ => None,
    }
}

/// What a binary operator makes of two integers.
fn of_integers(op: BinaryOp, left: WholeType, x: u64, right: WholeType, y: u64) -> Option<u64>
    ensures { result ≡ of_binary op left x right y }
{
    binary_value(op, Some(left.get()), Some(x), Some(right.get()), Some(y))
}

/// Whether two words have one address number.
fn is_same_address(memory: &Memory, one: Word, other: Word) -> bool
    ensures { result ≡ is_same_address memory.now one other }
{
    memory.address(one) == memory.address(other)
}
