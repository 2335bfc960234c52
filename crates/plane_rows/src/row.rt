//! The words of a row.
use crate::ask::asked;
use crate::change::changed;
use cbase::NoMemory;
use planes::Plane;
use std::alloc::Global;

/// The planes of a row.
#[derive(Drop)]
pub struct Planes {
    /// The one that is changed and asked.
    pub plane: Plane,
    /// The one beside it.
    pub other: Plane,
}

/// What a word does or asks, and its numbers; those that it leaves away are 0.
#[derive(Clone, Copy)]
pub struct Word<'a> {
    /// The name in front of its numbers.
    pub name: &'a str,
    /// The first number.
    pub first: u32,
    /// The second number.
    pub second: u32,
    /// The third number.
    pub third: u32,
}

/// The number in front of a text, and the text behind it.
fn number_of(text: &str) -> (u32, &str) {
    let (front, rest) = text.split_once(':').unwrap_or((text, ""));
    (front.parse::<u32>().unwrap_or(0), rest)
}

/// A word, with numbers as in `fill=FIRST:SECOND:THIRD`.
fn word_of(text: &str) -> Word<'_> {
    let (name, numbers) = text.split_once('=').unwrap_or((text, ""));
    let (first, rest) = number_of(numbers);
    let (second, rest) = number_of(rest);
    let (third, _) = number_of(rest);
    Word {
        name,
        first,
        second,
        third,
    }
}

/// What is printed for a line.
pub fn answer_of_line(alloc: Global, line: &str) -> Result<String, NoMemory> {
    let mut shown = String::new(alloc);
    if line.starts_with("#") {
        shown.push_str(line)?;
        return Ok(shown);
    }
    let mut planes = Planes {
        plane: Plane::new(alloc, 0, 0)?,
        other: Plane::new(alloc, 0, 0)?,
    };
    for text in line.split_whitespace() {
        answer_word(alloc, &mut planes, &mut shown, word_of(text))?;
    }
    Ok(shown)
}

/// Does what a word says, and puts what it asks behind what is shown.
fn answer_word(
    alloc: Global,
    planes: &mut Planes,
    shown: &mut String,
    word: Word<'_>,
) -> Result<(), NoMemory> {
    if !changed(alloc, planes, word)? {
        shown.push_str(" ")?;
        asked(alloc, planes, shown, word)?;
    }
    Ok(())
}
