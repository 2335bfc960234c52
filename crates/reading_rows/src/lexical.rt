//! The tokens of a text.
use crate::printing::{push_bytes, push_row, push_text};
use cbase::{NoMemory, Text};
use ctokens::{Lexical, Token, TokenKind, Tokens};
use std::alloc::Global;

/// A letter for each kind: w, n, l, q and m.
fn letter(kind: TokenKind) -> &'static str {
    match kind {
        TokenKind::Word => " w",
        TokenKind::Number => " n",
        TokenKind::Letter => " l",
        TokenKind::Quoted => " q",
        TokenKind::Mark => " m",
    }
}

/// Names, each behind a `|`.
fn push_names(names: &[Text], shown: &mut String) -> Result<(), NoMemory> {
    for name in names {
        push_text("|", shown)?;
        push_bytes(name.as_slice(), shown)?;
    }
    Ok(())
}

/// The place where no token begins.
fn shown_lexical(lexical: &Lexical, shown: &mut String) -> Result<(), NoMemory> {
    let place = lexical.place;
    push_row(
        " ?",
        &[place.file, place.line, place.column, place.at],
        shown,
    )?;
    push_names(lexical.names.as_slice(), shown)
}

/// A token.
fn shown_token(token: &Token, shown: &mut String) -> Result<(), NoMemory> {
    let place = token.place;
    push_row(
        letter(token.kind),
        &[token.from, token.to, place.file, place.line, place.column],
        shown,
    )
}

/// The tokens with the names and packs.
fn shown_tokens(tokens: &Tokens, shown: &mut String) -> Result<(), NoMemory> {
    for token in tokens.list.as_slice() {
        shown_token(token, shown)?;
    }
    push_names(tokens.names.as_slice(), shown)?;
    push_row("!", tokens.packs.as_slice(), shown)
}

/// What a text in `t.c` gives: for each token its letter, its first byte and the one behind its last, and the file, line and column of its place; then each name behind a `|`,
/// and `!` with the numbers of `packs`. Where there is no list, `?`, the file, line and column of the place, the number of tokens before it,
/// and the names.
pub fn tokens(alloc: Global, text: &[u8], shown: &mut String) -> Result<(), NoMemory> {
    if text.len() > 4_194_304 {
        return push_text(" too long", shown);
    }
    match ctokens::tokens(alloc, text, "t.c") {
        Ok(Ok(tokens)) => shown_tokens(&tokens, shown),
        Ok(Err(lexical)) => shown_lexical(&lexical, shown),
        Err(error) => Err(error),
    }
}
