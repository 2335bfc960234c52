ghost use Rattle.std.specs.Prelude.{◌≡◌, ◌++◌, ◌<◌, false, IfOk, OnOk};
ghost use Rattle.std.specs.List.{All};
ghost use Rattle.std.specs.Fmt.{decimal, digit_glyph};
ghost use Rattle.choices.specs.Format.{SpellsChoices, contents_text};
ghost use Rattle.choices.specs.Written.{HasFewBytes, HasLine, line_of, written};

use crate::choice::Choice;
use cbase::{List, NoMemory, Text};
use std::alloc::Global;

/// Appends a number in decimal, without leading zeros.
fn push_number(alloc: Global, text: &mut Text, number: u64) -> Result<(), NoMemory>
    ensures { OnOk result (text.new ≡ text.old ++ decimal number) }
{
    let digits = format!(in alloc; "{number}")?;
    text.extend(digits.as_bytes())
}

/// The lower-case hexadecimal digit of a value.
fn digit_of(value: u8) -> u8
    requires { value < 16 }
    ensures { result ≡ digit_glyph false value }
{
    if value < 10 {
        b'0' + value
    } else {
        b'a' + (value - 10)
    }
}

/// Appends two digits for each byte, and `-` where there is none.
fn push_contents(text: &mut Text, bytes: &[u8]) -> Result<(), NoMemory>
    ensures text { OnOk result (text.new ≡ text.old ++ contents_text bytes.now) }
    ensures are_bytes { All (λ byte. byte < 256) bytes.now }
{
    if bytes.is_empty() {
        return text.extend(b"-");
    }
    for byte in bytes {
        text.extend(&[digit_of(*byte / 16), digit_of(*byte % 16)])?;
    }
    Ok(())
}

/// Appends the line of a choice.
#[tactic(auto, using(std::proofs::Common::append_assoc))]
fn push_line(alloc: Global, text: &mut Text, choice: &Choice) -> Result<(), NoMemory>
    requires { HasFewBytes choice.now }
    ensures line { OnOk result (text.new ≡ text.old ++ line_of choice.now) }
    ensures has_line { OnOk result (HasLine choice.now) }
{
    match choice {
        Choice::None => text.extend(b"none\n"),
        Choice::Input(number) => {
            text.extend(b"input ")?;
            push_number(alloc, text, *number)?;
            text.extend(b"\n")
        }
        Choice::Block { base, bytes } => {
            text.extend(b"block ")?;
            push_number(alloc, text, *base)?;
            text.extend(b" ")?;
            push_contents(text, bytes.as_slice())?;
            text.extend(b"\n")
        }
    }
}

/// The text of a list of choices.
///
/// Contents have at most 65,536 bytes; the text may be of any length.
pub fn choices_text(alloc: Global, choices: &[Choice]) -> Result<Text, NoMemory>
    requires { All HasFewBytes choices.now }
    ensures text { IfOk result (λ text. text ≡ written choices.now) }
    ensures spelled { IfOk result (λ text. SpellsChoices text choices.now) }
{
    let mut text = Text::new(alloc);
    for choice in choices {
        push_line(alloc, &mut text, choice)?;
    }
    Ok(text)
}
