use crate::choice::Choice;
use cbase::List;

/// Why a text is no text of choices, with the number of the byte at which this shows, counted from 0.
///
/// The bytes before that one begin some text of choices, and with it they begin none.
#[derive(Clone, Copy, Debug, PartialEq, Eq)]
pub enum Refusal {
    /// The text ends here, behind its last byte, inside a line; the newline of the last line may be all that is wanting.
    CutShort(usize),
    /// This byte stands where a line is to go on as `none`, `input ` or `block `.
    Word(usize),
    /// This byte is no digit, and stands where a number is to begin, or to go on or end: a sign, a carriage return, a second blank.
    Number(usize),
    /// This digit stands behind a leading zero.
    LeadingZero(usize),
    /// With this digit a number is 2^64 or more.
    TooGreat(usize),
    /// This byte stands where contents are to go on or end: an upper-case letter, a blank, a newline behind half a byte.
    Contents(usize),
    /// This digit stands behind contents of 65,536 bytes.
    TooLong(usize),
}

/// What is read from a text.
#[derive(Drop)]
pub enum ReadChoices {
    /// The choices that the text spells.
    Choices(List<Choice>),
    /// The text spells no choices.
    Refused(Refusal),
}
