//! The rows as they stand in a line, with the escapes of their texts.
use crate::kinds::{Kind, kind_of};
use cbase::{NoMemory, Text};
use std::alloc::Global;

/// What a line says.
#[derive(Clone, Copy)]
pub struct Row<'a> {
    /// The word of what is asked.
    pub word: &'a str,
    /// What is asked.
    pub kind: Kind,
    /// Four numbers: what each says, says the kind.
    pub numbers: [u32; 4],
    /// Words, each behind a `|`, or `-`.
    pub words: &'a str,
    /// The text, with its escapes.
    pub text: &'a str,
}

/// A text up to its first blank, and what stands behind that.
fn parted(text: &str) -> (&str, &str) {
    text.split_once(' ').unwrap_or((text, ""))
}

/// The number up to the first blank of a text, or 0, and what stands behind that.
fn number_of(text: &str) -> (u32, &str) {
    let (number, rest) = parted(text);
    (number.parse::<u32>().unwrap_or(0), rest)
}

/// The row of a line, where it begins with the word of a kind.
pub fn row_of_line(line: &str) -> Option<Row<'_>> {
    let (word, rest) = parted(line);
    let (first, rest) = number_of(rest);
    let (second, rest) = number_of(rest);
    let (third, rest) = number_of(rest);
    let (fourth, rest) = number_of(rest);
    let (words, text) = parted(rest);
    match kind_of(word) {
        Some(kind) => Some(Row {
            word,
            kind,
            numbers: [first, second, third, fourth],
            words,
            text,
        }),
        None => None,
    }
}

/// Puts the words of a text behind others: each stands behind a `|`.
pub fn push_words(alloc: Global, text: &str, words: &mut Vec<String>) -> Result<(), NoMemory> {
    match text.strip_prefix("|") {
        Some(rest) => {
            for word in rest.split('|') {
                words.push(String::from_str(alloc, word)?)?;
            }
            Ok(())
        }
        None => Ok(()),
    }
}

/// How far an escape is read.
#[derive(Clone, Copy)]
enum State {
    /// No escape has begun.
    Plain,
    /// Behind a backslash.
    Begun,
    /// Behind `\x`.
    High,
    /// Behind `\x` and a digit of this value.
    Low(u8),
}

/// The value of a hexadecimal digit.
fn digit(byte: u8) -> u8 {
    match byte {
        b'0'..=b'9' => byte.wrapping_sub(b'0'),
        _ => byte.wrapping_sub(b'a').wrapping_add(10),
    }
}

/// The byte that a letter behind a backslash stands for.
fn escape(letter: u8) -> u8 {
    match letter {
        b'n' => b'\n',
        b't' => b'\t',
        b'r' => b'\r',
        b's' => b' ',
        _ => letter,
    }
}

/// Reads a byte of a text: how far the escape is read behind it, and the byte that it ends.
fn step(state: State, byte: u8) -> (State, Option<u8>) {
    match state {
        State::Plain if byte == b'\\' => (State::Begun, None),
        State::Plain => (State::Plain, Some(byte)),
        State::Begun if byte == b'x' => (State::High, None),
        State::Begun => (State::Plain, Some(escape(byte))),
        State::High => (State::Low(digit(byte)), None),
        State::Low(high) => (
            State::Plain,
            Some(high.wrapping_mul(16).wrapping_add(digit(byte))),
        ),
    }
}

/// Puts the bytes of a text behind others. Its escapes are `\n`, `\t`, `\r`, `\s` for a blank, `\\` and `\x` with two hexadecimal digits.
pub fn unescape(text: &str, bytes: &mut Text) -> Result<(), NoMemory> {
    let mut state = State::Plain;
    for byte in text.as_bytes() {
        let (next, ended) = step(state, *byte);
        state = next;
        if let Some(byte) = ended {
            bytes.extend(&[byte])?;
        }
    }
    Ok(())
}
