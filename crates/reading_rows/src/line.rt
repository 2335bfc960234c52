//! What is printed for a line.
ghost use Rattle.ctokens.specs.InText.{LieInText};
ghost use Rattle.ctokens.specs.TokenList.{AreNumbered};

use crate::answers::{Asked, last, typedef};
use crate::at_tokens::{block, expression};
use crate::constructs::{construct, layout};
use crate::cut::cut;
use crate::kinds::Kind;
use crate::lexical::tokens;
use crate::needs::{items, needed, passed};
use crate::printing::push_text;
use crate::row::{Row, row_of_line, unescape};
use crate::scopes::scope;
use crate::terminals::{constant, mark, terminal};
use cbase::{NoMemory, Text};
use ctokens::Tokens;
use std::alloc::Global;

/// Puts what is printed for a line into an empty text. The text of a row `repeat` is put behind `front`, and that of any other row behind what stands there is
/// the text that it asks of.
pub fn answer_of_line(
    alloc: Global,
    front: &mut Text,
    line: &str,
    shown: &mut String,
) -> Result<(), NoMemory> {
    if line.starts_with("# ") {
        return push_text(line, shown);
    }
    match row_of_line(line) {
        Some(row) => {
            push_text(row.word, shown)?;
            answer_of_row(alloc, front, &row, shown)
        }
        None => push_text("no row", shown),
    }
}

/// What is printed for a row.
fn answer_of_row(
    alloc: Global,
    front: &mut Text,
    row: &Row<'_>,
    shown: &mut String,
) -> Result<(), NoMemory> {
    if let Kind::Repeat = row.kind {
        return repeat(front, row.number, row.text);
    }
    if let Kind::Scope = row.kind {
        return scope(alloc, row.text, shown);
    }
    unescape(row.text, front)?;
    let answered = answer(alloc, row.kind, row.number, front.as_slice(), shown);
    *front = Text::new(alloc);
    answered
}

/// Puts a text behind others so often.
fn repeat(front: &mut Text, number: u32, text: &str) -> Result<(), NoMemory> {
    for _ in 0..number {
        unescape(text, front)?;
    }
    Ok(())
}

/// What a kind answers of a text.
fn answer(
    alloc: Global,
    kind: Kind,
    number: u32,
    text: &[u8],
    shown: &mut String,
) -> Result<(), NoMemory> {
    match kind {
        Kind::Tokens => tokens(alloc, text, shown),
        Kind::Constant => constant(text, shown),
        Kind::Mark => mark(text, shown),
        _ => match cut(alloc, text) {
            Ok(Some(t)) => answer_of_tokens(alloc, kind, number, &t, shown),
            Ok(None) => push_text(" no tokens", shown),
            Err(error) => Err(error),
        },
    }
}

/// What a kind answers of the tokens of a text.
fn answer_of_tokens(
    alloc: Global,
    kind: Kind,
    number: u32,
    t: &Tokens,
    shown: &mut String,
) -> Result<(), NoMemory>
    requires text { LieInText t.now }
    requires numbered { AreNumbered t.now.list }
{
    match kind {
        Kind::Passed => passed(alloc, t, shown),
        Kind::Items => items(alloc, t, shown),
        Kind::Needed => needed(alloc, t, shown),
        Kind::Last => last(alloc, t, Asked::Answer, shown),
        Kind::Places => last(alloc, t, Asked::Places, shown),
        Kind::Typedef => typedef(alloc, t, number > 0, shown),
        Kind::Expression => expression(alloc, t, number, shown),
        Kind::Block => block(alloc, t, number, false, shown),
        Kind::Statements => block(alloc, t, number, true, shown),
        Kind::Construct => construct(alloc, t, shown),
        Kind::Layout => layout(alloc, t, shown),
        _ => terminal(alloc, number as usize, t, shown),
    }
}
