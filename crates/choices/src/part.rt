ghost use Rattle.std.specs.Prelude.{◌≡◌};
ghost use Rattle.choices.specs.Reading.{IsPart, next, begun, word_step, number_step, contents_step, low_step, whole_step};

use crate::number::{Number, digit_of, end_of, hex_value, with_digit};
use crate::word::{Word, letters};

/// How far a line was read.
#[derive(Clone, Copy)]
pub(crate) enum Part {
    /// A line begins.
    Begin,
    /// So many bytes of a word were read, and not all.
    InWord(Word, usize),
    /// A number begins.
    First(Number),
    /// The digits of this number were read.
    Digits(Number, u64),
    /// The contents of a block begin, which has this base.
    Contents(u64),
    /// The hyphen of empty contents was read.
    Hyphen(u64),
    /// The first digit of a byte was read, with this value.
    Half(u64, u8),
    /// A byte was read to its end.
    Whole(u64),
}

/// What a byte does to a line.
#[derive(Clone, Copy)]
pub(crate) enum Step {
    /// No line goes on so.
    Refuse,
    /// The line goes on.
    Go(Part),
    /// A byte of the contents of a block with this base is read to its end.
    Byte(u64, u8),
    /// The line was `none`.
    EndNone,
    /// The line was an input.
    EndInput(u64),
    /// The line was a block with this base, and with the contents that were read.
    EndBlock(u64),
}

/// The first byte of a line.
fn begun(byte: u8) -> Step
    ensures { result ≡ begun byte }
{
    match byte {
        b'n' => Step::Go(Part::InWord(Word::None, 1)),
        b'i' => Step::Go(Part::InWord(Word::Input, 1)),
        b'b' => Step::Go(Part::InWord(Word::Block, 1)),
        _ => Step::Refuse,
    }
}

/// A byte behind the first `read` ones of a word.
fn word_step(word: Word, read: usize, byte: u8) -> Step
    requires { IsPart (Part.InWord word read) }
    ensures { result ≡ word_step word read byte }
{
    let letters = letters(word);
    if letters[read] != byte {
        return Step::Refuse;
    }
    if read + 1 < letters.len() {
        return Step::Go(Part::InWord(word, read + 1));
    }
    match word {
        Word::None => Step::EndNone,
        Word::Input => Step::Go(Part::First(Number::Input)),
        Word::Block => Step::Go(Part::First(Number::Base)),
    }
}

/// A byte behind the digits of a number.
fn number_step(number: Number, value: u64, byte: u8) -> Step
    ensures { result ≡ number_step number value byte }
{
    if let Some(digit) = digit_of(byte) {
        return match with_digit(value, digit) {
            Some(value) => Step::Go(Part::Digits(number, value)),
            None => Step::Refuse,
        };
    }
    if byte != end_of(number) {
        return Step::Refuse;
    }
    match number {
        Number::Input => Step::EndInput(value),
        Number::Base => Step::Go(Part::Contents(value)),
    }
}

/// The first byte of contents.
fn contents_step(base: u64, byte: u8) -> Step
    ensures { result ≡ contents_step base byte }
{
    if byte == b'-' {
        return Step::Go(Part::Hyphen(base));
    }
    match hex_value(byte) {
        Some(high) => Step::Go(Part::Half(base, high)),
        None => Step::Refuse,
    }
}

/// The second digit of a byte.
fn low_step(base: u64, high: u8, byte: u8) -> Step
    requires { IsPart (Part.Half base high) }
    ensures { result ≡ low_step base high byte }
{
    match hex_value(byte) {
        Some(low) => Step::Byte(base, 16 * high + low),
        None => Step::Refuse,
    }
}

/// A byte behind whole bytes of contents, of which there may be no more where they are full.
fn whole_step(base: u64, full: bool, byte: u8) -> Step
    ensures { result ≡ whole_step base full byte }
{
    if byte == b'\n' {
        return Step::EndBlock(base);
    }
    if full {
        return Step::Refuse;
    }
    match hex_value(byte) {
        Some(high) => Step::Go(Part::Half(base, high)),
        None => Step::Refuse,
    }
}

/// What a byte does behind what was read of a line, where its contents are full or not.
pub(crate) fn next(part: Part, full: bool, byte: u8) -> Step
    requires { IsPart part }
    ensures { result ≡ next part full byte }
{
    match part {
        Part::Begin => begun(byte),
        Part::InWord(word, read) => word_step(word, read, byte),
        Part::First(number) => match digit_of(byte) {
            Some(digit) => Step::Go(Part::Digits(number, u64::from(digit))),
            None => Step::Refuse,
        },
        Part::Digits(number, value) => number_step(number, value, byte),
        Part::Contents(base) => contents_step(base, byte),
        Part::Hyphen(base) => {
            if byte == b'\n' {
                return Step::EndBlock(base);
            }
            Step::Refuse
        }
        Part::Half(base, high) => low_step(base, high, byte),
        Part::Whole(base) => whole_step(base, full, byte),
    }
}
