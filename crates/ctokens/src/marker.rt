//! Line markers.

ghost use Rattle.std.specs.Prelude.{◌≡◌, ◌≤◌, false, IfOk, IfSome};
ghost use Rattle.std.specs.List.{list_all};
ghost use Rattle.ctokens.specs.Directive.{is_flag_byte};
ghost use Rattle.ctokens.specs.MarkerAt.{role_in_name, line_number, name_at, name_and_flags, number_and_name, marker_at};

use crate::blanks::{begins_with_blank, behind, unblanked};
use crate::byte::{Class, is_flag_byte, leading};
use cbase::{NoMemory, Text};
use std::alloc::Global;

/// What a line marker says of the line that follows.
#[derive(Drop)]
pub(crate) struct FoundMarker {
    /// Its number.
    pub(crate) number: u32,
    /// The name of the file in which it stands.
    pub(crate) name: Text,
}

/// A name that was found between quotes.
#[derive(Drop)]
pub(crate) struct FoundName {
    /// The name.
    pub(crate) name: Text,
    /// How many bytes it takes behind the first quote, the last quote among them.
    pub(crate) taken: usize,
}

/// How a byte goes on with a name between quotes.
#[derive(Clone, Copy)]
enum Role {
    /// It is part of the name.
    Holds,
    /// It is a `\` that takes the next byte along.
    Skips,
    /// It ends the name.
    Ends,
    /// No name has it here.
    Breaks,
}

/// The greatest number that a marker may give to a line.
const GREATEST_LINE: u64 = 2_147_483_647;

/// What a directive line says, given without its newline, or `None` where it is no line marker.
#[tactic(auto, unfolding(crate::specs::MarkerAt::marker_at))]
pub(crate) fn marker_at(alloc: Global, line: &[u8]) -> Result<Option<FoundMarker>, NoMemory>
    ensures { IfOk result (λ found. found ≡ marker_at line.now) }
{
    if line.starts_with(b"#line") {
        let behind = behind(5, line);
        if !begins_with_blank(behind) {
            return Ok(None);
        }
        return number_and_name(alloc, unblanked(behind));
    }
    number_and_name(alloc, unblanked(behind(1, line)))
}

/// The number, the name and the flags of a marker, at the front of the text.
#[tactic(auto, unfolding(crate::specs::MarkerAt::number_and_name))]
fn number_and_name(alloc: Global, text: &[u8]) -> Result<Option<FoundMarker>, NoMemory>
    ensures { IfOk result (λ found. found ≡ number_and_name text.now) }
{
    let count = leading(Class::Digit, text);
    if count == 0 {
        return Ok(None);
    }
    let (digits, rest) = text.split_at(count);
    match line_number(digits) {
        None => Ok(None),
        Some(number) => name_and_flags(alloc, number, unblanked(rest)),
    }
}

/// The value of decimal digits, or `None` where it is above the greatest number of a line.
#[tactic(auto, using(crate::proofs::FoundParts::number_goes_on, crate::proofs::FoundParts::number_breaks, crate::proofs::FoundParts::number_ends))]
fn line_number(digits: &[u8]) -> Option<u32>
    ensures value { result ≡ line_number 0 digits.now }
    ensures small { IfSome result (λ number. number ≤ 2147483647) }
{
    let mut value: u64 = 0;
    for digit in digits {
        value = 10 * value + u64::from(digit.saturating_sub(b'0'));
        if value > GREATEST_LINE {
            return None;
        }
    }
    Some(value as u32)
}

/// The name and the flags of a marker, at the front of the text.
#[tactic(auto, unfolding(crate::specs::MarkerAt::name_and_flags))]
fn name_and_flags(alloc: Global, number: u32, text: &[u8]) -> Result<Option<FoundMarker>, NoMemory>
    ensures { IfOk result (λ found. found ≡ name_and_flags number text.now) }
{
    let [first, others @ ..] = text else {
        return Ok(None);
    };
    if *first != b'"' {
        return Ok(None);
    }
    match name_at(alloc, others)? {
        None => Ok(None),
        Some(FoundName { name, taken }) => {
            if !are_flags(behind(taken, others)) {
                return Ok(None);
            }
            Ok(Some(FoundMarker { number, name }))
        }
    }
}

/// Whether the text has digits and blanks alone.
fn are_flags(text: &[u8]) -> bool
    ensures { result ≡ list_all is_flag_byte text.now }
{
    text.iter().all(|byte| is_flag_byte(*byte))
}

/// The name at the front of the text, which stands behind its first quote.
#[tactic(auto, using(crate::proofs::FoundParts::name_holds, crate::proofs::FoundParts::name_skips, crate::proofs::FoundParts::name_ends, crate::proofs::FoundParts::name_breaks, crate::proofs::FoundParts::name_stops, crate::proofs::FoundParts::name_begins))]
fn name_at(alloc: Global, text: &[u8]) -> Result<Option<FoundName>, NoMemory>
    ensures { IfOk result (λ found. found ≡ name_at false text.now) }
{
    let mut name = Vec::new(alloc);
    let mut kept = false;
    for (index, byte) in text.iter().enumerate() {
        match role_in_name(kept, *byte) {
            Role::Holds => {
                name.push(*byte)?;
                kept = false;
            }
            Role::Skips => kept = true,
            Role::Ends => {
                return Ok(Some(FoundName {
                    name: Text::from_vec(name),
                    taken: index + 1,
                }));
            }
            Role::Breaks => return Ok(None),
        }
    }
    Ok(None)
}

/// How a byte goes on with a name; `kept` says that a `\` stands before it.
fn role_in_name(kept: bool, byte: u8) -> Role
    ensures { result ≡ role_in_name kept byte }
{
    if kept {
        if byte == b'"' || byte == b'\\' {
            return Role::Holds;
        }
        return Role::Breaks;
    }
    if byte == b'"' {
        return Role::Ends;
    }
    if byte == b'\\' {
        return Role::Skips;
    }
    Role::Holds
}
