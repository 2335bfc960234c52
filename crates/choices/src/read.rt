ghost use Rattle.std.specs.Prelude.{◌≡◌, IfOk};
ghost use Rattle.choices.specs.Answers.{IsAnswer, MayBeWritten};
ghost use Rattle.choices.specs.Reading.{digits_refusal, refusal_at};

use crate::number::{digit_of, hex_value};
use crate::part::Part;
use crate::reader::{Reader, take};
use crate::refusal::{ReadChoices, Refusal};
use cbase::{List, NoMemory, Text};
use std::alloc::Global;

/// Why a byte is refused behind the digits of a number with this value.
fn digits_refusal(value: u64, byte: u8, at: usize) -> Refusal
    ensures { result ≡ digits_refusal value byte at }
{
    if digit_of(byte).is_none() {
        return Refusal::Number(at);
    }
    if value == 0 {
        return Refusal::LeadingZero(at);
    }
    Refusal::TooGreat(at)
}

/// Why a byte is refused behind what was read of its line.
fn refusal(part: Part, byte: u8, at: usize) -> Refusal
    ensures { result ≡ refusal_at part byte at }
{
    match part {
        Part::Begin | Part::InWord(..) => Refusal::Word(at),
        Part::First(_) => Refusal::Number(at),
        Part::Digits(_, value) => digits_refusal(value, byte, at),
        Part::Contents(_) | Part::Hyphen(_) | Part::Half(..) => Refusal::Contents(at),
        Part::Whole(_) => match hex_value(byte) {
            Some(_) => Refusal::TooLong(at),
            None => Refusal::Contents(at),
        },
    }
}

/// Reads the choices that a text spells.
///
/// A text that spells none is refused at its first byte that no text of choices goes on with, or as cut short. The empty
/// text spells no choices at all. How long the text is makes no difference; the time is in proportion to it.
pub fn read_choices(alloc: Global, text: &[u8]) -> Result<ReadChoices, NoMemory>
    ensures answer { IfOk result (λ answer. IsAnswer text.now answer) }
    ensures exactly { IfOk result (λ answer. (other : ReadChoices) → IsAnswer text.now other → other ≡ answer) }
    ensures few { IfOk result (λ answer. MayBeWritten answer) }
{
    let mut reader = Reader {
        choices: List::new(alloc),
        contents: Text::new(alloc),
        part: Part::Begin,
    };
    for (at, byte) in text.iter().enumerate() {
        let part = reader.part;
        if !take(alloc, &mut reader, *byte)? {
            return Ok(ReadChoices::Refused(refusal(part, *byte, at)));
        }
    }
    let Reader {
        choices,
        contents: _,
        part,
    } = reader;
    match part {
        Part::Begin => Ok(ReadChoices::Choices(choices)),
        _ => Ok(ReadChoices::Refused(Refusal::CutShort(text.len()))),
    }
}
