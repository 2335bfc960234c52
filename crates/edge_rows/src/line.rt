//! What is printed for a line.
use crate::commands::{replay_words, words};
use crate::files::{files, steady};
use crate::kinds::Kind;
use crate::printing::push_text;
use crate::program::run;
use crate::reports::report;
use crate::row::{Row, row_of_line, unescape};
use crate::runs::run_report;
use crate::sinks::{sent, sent_at_once};
use cbase::{NoMemory, Text};
use std::alloc::Global;

/// Puts what is printed for a line into an empty text. The text of a row `repeat` is put behind `front`, and that of any other row behind what stands there is
/// the text that it asks of.
pub fn answer_of_line(
    alloc: Global,
    front: &mut Text,
    line: &str,
    shown: &mut String,
) -> Result<(), NoMemory> {
    if line.starts_with("# ") {
        return push_text(line, shown);
    }
    match row_of_line(line) {
        Some(row) => {
            push_text(row.word, shown)?;
            answer_of_row(alloc, front, &row, shown)
        }
        None => push_text("no row", shown),
    }
}

/// What is printed for a row.
fn answer_of_row(
    alloc: Global,
    front: &mut Text,
    row: &Row<'_>,
    shown: &mut String,
) -> Result<(), NoMemory> {
    if let Kind::Repeat = row.kind {
        return repeat(front, row.numbers[0], row.text);
    }
    unescape(row.text, front)?;
    let answered = answer(alloc, row, front.as_slice(), shown);
    *front = Text::new(alloc);
    answered
}

/// Puts a text behind others so often.
fn repeat(front: &mut Text, number: u32, text: &str) -> Result<(), NoMemory> {
    for _ in 0..number {
        unescape(text, front)?;
    }
    Ok(())
}

/// What is answered of a row with this text.
fn answer(alloc: Global, row: &Row<'_>, text: &[u8], shown: &mut String) -> Result<(), NoMemory> {
    match row.kind {
        Kind::Run => run(alloc, row, text, shown),
        Kind::Files => files(alloc, row, text, shown),
        Kind::Steady => steady(alloc, row, text, shown),
        Kind::Send => sent(alloc, row, text, shown),
        Kind::SteadySend => sent_at_once(text, shown),
        Kind::Words => words(alloc, row.text, shown),
        Kind::ReplayWords => replay_words(alloc, row.text, shown),
        Kind::Safe
        | Kind::Warned
        | Kind::Error
        | Kind::WarnedSpent
        | Kind::Spent
        | Kind::Large
        | Kind::Lexical
        | Kind::Deep
        | Kind::NoMain
        | Kind::Syntax
        | Kind::Rule
        | Kind::Construct
        | Kind::NotYet
        | Kind::TooLong
        | Kind::Usage
        | Kind::ReadFault
        | Kind::OutOfMemory => report(alloc, row, shown),
        _ => run_report(alloc, row, shown),
    }
}
