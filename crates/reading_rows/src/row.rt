//! The rows as they stand in a line, with the escapes of their texts.
use crate::kinds::{Kind, kind_of};
use cbase::{NoMemory, Text};

/// What a line says.
#[derive(Clone, Copy)]
pub struct Row<'a> {
    /// The word of what is asked.
    pub word: &'a str,
    /// What is asked.
    pub kind: Kind,
    /// A number that the kind asks for, or 0.
    pub number: u32,
    /// The text, with its escapes.
    pub text: &'a str,
}

/// The row of a line, where it has a kind, a number and a text.
pub fn row_of_line(line: &str) -> Option<Row<'_>> {
    let (word, rest) = line.split_once(' ')?;
    let (number, text) = rest.split_once(' ')?;
    match (kind_of(word), number.parse::<u32>()) {
        (Some(kind), Ok(number)) => Some(Row {
            word,
            kind,
            number,
            text,
        }),
        _ => None,
    }
}

/// How far an escape is read.
#[derive(Clone, Copy)]
enum State {
    /// No escape has begun.
    Plain,
    /// Behind a backslash.
    Begun,
    /// Behind `\x`.
    High,
    /// Behind `\x` and a digit of this value.
    Low(u8),
}

/// The value of a hexadecimal digit.
fn digit(byte: u8) -> u8 {
    match byte {
        b'0'..=b'9' => byte.wrapping_sub(b'0'),
        _ => byte.wrapping_sub(b'a').wrapping_add(10),
    }
}

/// The byte that a letter behind a backslash stands for.
fn escape(letter: u8) -> u8 {
    match letter {
        b'n' => b'\n',
        b't' => b'\t',
        b'r' => b'\r',
        b's' => b' ',
        _ => letter,
    }
}

/// Reads a byte of a text: how far the escape is read behind it, and the byte that it ends.
fn step(state: State, byte: u8) -> (State, Option<u8>) {
    match state {
        State::Plain if byte == b'\\' => (State::Begun, None),
        State::Plain => (State::Plain, Some(byte)),
        State::Begun if byte == b'x' => (State::High, None),
        State::Begun => (State::Plain, Some(escape(byte))),
        State::High => (State::Low(digit(byte)), None),
        State::Low(high) => (
            State::Plain,
            Some(high.wrapping_mul(16).wrapping_add(digit(byte))),
        ),
    }
}

/// Puts the bytes of a text behind others. Its escapes are `\n`, `\t`, `\r`, `\s` for a blank, `\\` and `\x` with two hexadecimal digits.
pub fn unescape(text: &str, bytes: &mut Text) -> Result<(), NoMemory> {
    let mut state = State::Plain;
    for byte in text.as_bytes() {
        let (next, ended) = step(state, *byte);
        state = next;
        if let Some(byte) = ended {
            bytes.extend(&[byte])?;
        }
    }
    Ok(())
}
