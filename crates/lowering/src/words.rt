//! What operators make of words that are known without a memory (C11 6.6): of numbers, and of addresses in static objects, which are only moved.
ghost use Rattle.std.specs.Prelude.{◌≡◌, []};
ghost use Rattle.bytes_core.specs.declared.word.Word.TheVariants.{Plain, To};
ghost use Rattle.lowering.specs.Known.{operated_on, applied_to, converted_to, answered, truth_of, loaded_from, size_in_word, product_word};

use bytes_core::{Memory, Word};
use c_machine::Kind;
use c_steps::words::{applied, as_kind, is_true, operated, told};
use cbase::{BinaryOp, UnaryOp};

/// What a binary operator makes of two words; an address is only moved by a number.
pub fn operated_on(
    nothing: &Memory,
    op: BinaryOp,
    left: Kind,
    right: Kind,
    one: Word,
    other: Word,
) -> Option<Word>
    requires { nothing.now ≡ [] }
    ensures { result ≡ operated_on op left right one other }
{
    match one {
        Word::Plain(number) => behind_number(nothing, op, left, right, number, other),
        Word::To { block, offset } => match other {
            Word::Plain(number) => {
                moved_by_right(nothing, op, left, right, block, offset, number)
            }
            Word::To { .. } => None,
        },
    }
}

/// What it makes of a number and a word.
fn behind_number(
    nothing: &Memory,
    op: BinaryOp,
    left: Kind,
    right: Kind,
    one: u64,
    other: Word,
) -> Option<Word>
    requires { nothing.now ≡ [] }
    ensures { result ≡ operated_on op left right (Plain one) other }
{
    match other {
        Word::Plain(_) => operated(nothing, op, left, right, Word::Plain(one), other),
        Word::To { block, offset } => {
            moved_by_left(nothing, op, left, right, one, block, offset)
        }
    }
}

/// An address that a number on the right moves.
fn moved_by_right(
    nothing: &Memory,
    op: BinaryOp,
    left: Kind,
    right: Kind,
    block: u32,
    offset: i64,
    number: u64,
) -> Option<Word>
    requires { nothing.now ≡ [] }
    ensures { result ≡ operated_on op left right (To block offset) (Plain number) }
{
    match (op, left, right) {
        (BinaryOp::Add | BinaryOp::Sub, Kind::Pointer(_), Kind::Integer(_)) => operated(
            nothing,
            op,
            left,
            right,
            Word::To { block, offset },
            Word::Plain(number),
        ),
        _ => None,
    }
}

/// An address that a number on the left moves.
fn moved_by_left(
    nothing: &Memory,
    op: BinaryOp,
    left: Kind,
    right: Kind,
    number: u64,
    block: u32,
    offset: i64,
) -> Option<Word>
    requires { nothing.now ≡ [] }
    ensures { result ≡ operated_on op left right (Plain number) (To block offset) }
{
    match (op, left, right) {
        (BinaryOp::Add, Kind::Integer(_), Kind::Pointer(_)) => operated(
            nothing,
            op,
            left,
            right,
            Word::Plain(number),
            Word::To { block, offset },
        ),
        _ => None,
    }
}

/// What a unary operator makes of a number.
pub fn applied_to(nothing: &Memory, op: UnaryOp, kind: Kind, word: Word) -> Option<Word>
    requires { nothing.now ≡ [] }
    ensures { result ≡ applied_to op kind word }
{
    match word {
        Word::Plain(_) => applied(nothing, op, kind, word),
        Word::To { .. } => None,
    }
}

/// A word of one kind as one of another: no address becomes an integer.
pub fn converted_to(nothing: &Memory, from: Kind, to: Kind, word: Word) -> Option<Word>
    requires { nothing.now ≡ [] }
    ensures { result ≡ converted_to from to word }
{
    match word {
        Word::Plain(_) => Some(as_kind(nothing, from, to, word)),
        Word::To { .. } => match (from, to) {
            (Kind::Pointer(_), Kind::Pointer(_)) => Some(word),
            _ => None,
        },
    }
}

/// Whether a number is not 0.
pub fn truth_of(nothing: &Memory, word: Word) -> Option<bool>
    requires { nothing.now ≡ [] }
    ensures { result ≡ truth_of word }
{
    match word {
        Word::Plain(_) => Some(is_true(nothing, word)),
        Word::To { .. } => None,
    }
}

/// Whether a number is not 0, or whether it is, as an `int`.
pub fn answered(nothing: &Memory, asked: bool, word: Word) -> Option<Word>
    requires { nothing.now ≡ [] }
    ensures { result ≡ answered asked word }
{
    match word {
        Word::Plain(_) => Some(told(asked, is_true(nothing, word))),
        Word::To { .. } => None,
    }
}

/// What is known of an object by its address: an array is its address.
pub fn loaded_from(kind: Kind, at: Option<Word>) -> Option<Word>
    ensures { result ≡ loaded_from kind at }
{
    match kind {
        Kind::Array(_) => at,
        _ => None,
    }
}

/// A size of an allocation, or a length: a number of at most 65,536.
pub fn size_in_word(word: Option<Word>) -> Option<u32>
    ensures { result ≡ size_in_word word }
{
    match word {
        Some(Word::Plain(number)) => match u32::try_from(number) {
            Ok(size) if size <= 65536 => Some(size),
            _ => None,
        },
        _ => None,
    }
}

/// The size that is a product of two numbers.
pub fn product_size(one: Word, other: Word) -> Option<u32>
    ensures { result ≡ size_in_word (product_word one other) }
{
    match (one, other) {
        (Word::Plain(one), Word::Plain(other)) => {
            size_in_word(one.checked_mul(other).map(Word::Plain))
        }
        _ => None,
    }
}
