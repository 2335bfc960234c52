//! Tokens as the grammar sees them, where `t` is a typedef.
ghost use Rattle.ctokens.specs.InText.{LieInText};

use crate::printing::{counted, push_row, push_text, push_truth};
use cbase::{NoMemory, Place};
use cgrammar::{Scope, Terminal, begins_with_label, read_basic_words, row_of, stars_length};
use ctokens::{Token, TokenKind, Tokens};
use std::alloc::Global;

/// A token of the kind that stands in no text.
fn alone(kind: TokenKind) -> Token {
    Token {
        kind,
        from: 0,
        to: 1,
        place: Place::NONE,
    }
}

/// Whether the bytes are an integer constant.
pub fn constant(bytes: &[u8], shown: &mut String) -> Result<(), NoMemory> {
    let token = alone(TokenKind::Number);
    let number = Terminal {
        token: &token,
        bytes,
    };
    push_truth(number.is_constant(), shown)
}

/// Which operator the bytes are among the binary ones, the unary ones and the assignments, whether they are `++` of `++` and `--`, and whether they are `->` of `->` and `.`.
pub fn mark(bytes: &[u8], shown: &mut String) -> Result<(), NoMemory> {
    let token = alone(TokenKind::Mark);
    let mark = Terminal {
        token: &token,
        bytes,
    };
    Ok(write!(
        shown,
        " {:?} {:?} {:?} {:?} {:?}",
        mark.binary(),
        mark.unary(),
        mark.assignment(),
        mark.counting(),
        mark.member()
    )?)
}

/// What stands at the front of a row that begins with a token.
fn show(
    alloc: Global,
    scope: &Scope,
    row: &[Terminal<'_>],
    first: &Terminal<'_>,
    shown: &mut String,
) -> Result<(), NoMemory> {
    let numbers = [
        u32::from(begins_with_label(scope, row)),
        counted(stars_length(row)),
        counted(row.len()),
        first.token.place.at,
        counted(first.bytes.len()),
        u32::from(first.is_word(b"signed")),
        u32::from(first.is_any_word()),
        u32::from(first.is_name()),
        u32::from(first.is_typedef(scope)),
    ];
    push_row("", &numbers, shown)?;
    let read = read_basic_words(alloc, row)?;
    let storage = first.storage_word();
    Ok(write!(shown, " {} {:?} {storage:?}", read.count, read.basic)?)
}

/// The same of the row of a text from the token of that number on, where a typedef is put into an empty scope.
fn show_in_scope(
    alloc: Global,
    number: usize,
    t: &Tokens,
    scope: &mut Scope,
    shown: &mut String,
) -> Result<(), NoMemory>
    requires { LieInText t.now }
{
    scope.declare(alloc, b"t", true)?;
    let row = row_of(alloc, t)?;
    let row = row.as_slice();
    match row.get(number) {
        Some(first) => show(alloc, scope, &row[number..], first, shown),
        None => push_text(" no token", shown),
    }
}

/// What stands at a token of a text, and the tokens behind it: whether a label, 1 or 0, how many stars, and how many tokens there are from it on; of the token its number, how many bytes it has, and whether it is the
/// word `signed`, any word, a name and a typedef, each 1 or 0; how many words of basic types stand there, the type that they spell, and the storage class that the token names.
pub fn terminal(
    alloc: Global,
    number: usize,
    t: &Tokens,
    shown: &mut String,
) -> Result<(), NoMemory>
    requires { LieInText t.now }
{
    let mut scope = Scope::new(alloc)?;
    let told = show_in_scope(alloc, number, t, &mut scope, shown);
    drop(scope);
    told
}
