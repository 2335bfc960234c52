//! The five ways in which an item offers a name.

ghost use Rattle.std.specs.Prelude.{◌≡◌, ◌++◌, IfOk, OnOk, false};
ghost use Rattle.std.specs.Option.{option_to_list};
ghost use Rattle.ctokens.specs.Offered.{behind_brackets, behind_stars, bracketed_at, brackets_after, declared_at, enumerator_at, is_in_enum, is_said, offered, opens_enum, pointer_at, set_after, tag_at};
ghost use Rattle.ctokens.specs.Ways.{AreOffered, AreOfferedAt, IsEnumeratorAt};

use crate::symbol::{Lexeme, Symbol};
use cbase::NoMemory;
use std::alloc::Global;

/// The words that a row of tokens offers as names, those of each way by themselves.
#[derive(Drop)]
pub(crate) struct Ways {
    /// Those that `struct`, `union` and `enum` name where `{` follows.
    pub(crate) tags: Vec<Lexeme<u32>>,
    /// Those that name enum constants.
    pub(crate) enumerators: Vec<Lexeme<u32>>,
    /// Those that stand as declared names at depth 0.
    pub(crate) declared: Vec<Lexeme<u32>>,
    /// Those that stand behind `(` and stars, where the `(` stands at depth 0.
    pub(crate) pointers: Vec<Lexeme<u32>>,
    /// Those that are declared in brackets of their own, where the first of these stands at depth 0.
    pub(crate) bracketed: Vec<Lexeme<u32>>,
}

/// Appends the word, if there is one.
fn push_found(found: &mut Vec<Lexeme<u32>>, word: Option<Lexeme<u32>>) -> Result<(), NoMemory>
    ensures { OnOk result (found.new.items ≡ found.old.items ++ option_to_list word) }
{
    if let Some(word) = word {
        found.push(word)?;
    }
    Ok(())
}

/// The word that `struct`, `union` or `enum` at the front of the row names, where `{` follows it.
fn tag_at(row: &[Lexeme<u32>]) -> Option<Lexeme<u32>>
    ensures { option_to_list result ≡ tag_at row.now }
{
    match row {
        [tag, word, brace, ..] => {
            if tag.symbol.is_tag_word() && word.symbol.is_word() && brace.symbol.is_left_brace() {
                return Some(*word);
            }
            None
        }
        _ => None,
    }
}

/// The word at the front of the row, if it is declared there.
fn declared_at(depth: u32, set: bool, row: &[Lexeme<u32>]) -> Option<Lexeme<u32>>
    ensures { option_to_list result ≡ declared_at depth set row.now }
{
    match row {
        [word, next, ..] => {
            if depth == 0 && !set && word.symbol.is_identifier() && next.symbol.follows_declared() {
                return Some(*word);
            }
            None
        }
        _ => None,
    }
}

/// Whether a `=` stands at depth 0 since the last `,` there, after a token.
pub(crate) fn set_after(depth: u32, set: bool, symbol: Symbol) -> bool
    ensures { result ≡ set_after depth set symbol }
{
    if depth == 0 {
        return symbol.is_equals() || (!symbol.is_comma() && set);
    }
    set
}

/// The word behind the stars with which the row begins, if there is a star.
fn behind_stars(row: &[Lexeme<u32>]) -> Option<Lexeme<u32>>
    ensures { option_to_list result ≡ behind_stars false row.now }
{
    let mut starred = false;
    for token in row {
        if !token.symbol.is_star() {
            if starred && token.symbol.is_word() {
                return Some(*token);
            }
            return None;
        }
        starred = true;
    }
    None
}

/// The word behind the `(` at the front of the row and stars, where the `(` stands at depth 0.
fn pointer_at(depth: u32, row: &[Lexeme<u32>]) -> Option<Lexeme<u32>>
    ensures { option_to_list result ≡ pointer_at depth row.now }
{
    match row {
        [bracket, rest @ ..] => {
            if depth == 0 && bracket.symbol.is_left_parenthesis() {
                return behind_stars(rest);
            }
            None
        }
        _ => None,
    }
}

/// Whether what stands behind a word in one bracket says that it is a declared one.
fn is_said(row: &[Lexeme<u32>]) -> bool
    ensures { result ≡ is_said row.now }
{
    match row {
        [next, after, ..] => next.symbol.says_declared(after.symbol),
        _ => false,
    }
}

/// The declared word behind the brackets and stars with which the row begins.
fn behind_brackets(row: &[Lexeme<u32>]) -> Option<Lexeme<u32>>
    ensures { option_to_list result ≡ behind_brackets false row.now }
{
    let mut nested = false;
    for (i, token) in row.iter().enumerate() {
        if !(token.symbol.is_star() || token.symbol.is_left_parenthesis()) {
            if token.symbol.is_identifier() && (nested || is_said(row.split_at(i + 1).1)) {
                return Some(*token);
            }
            return None;
        }
        nested = true;
    }
    None
}

/// The declared word in brackets of its own, of which the first is at the front of the row and stands at depth 0.
fn bracketed_at(depth: u32, set: bool, row: &[Lexeme<u32>]) -> Option<Lexeme<u32>>
    ensures { option_to_list result ≡ bracketed_at depth set row.now }
{
    match row {
        [bracket, rest @ ..] => {
            if depth == 0 && !set && bracket.symbol.is_left_parenthesis() {
                return behind_brackets(rest);
            }
            None
        }
        _ => None,
    }
}

/// Appends the words that are offered at the front of the row, which an enum constant is not. Only tags are offered in brackets.
pub(crate) fn push_front(
    ways: &mut Ways,
    depth: u32,
    set: bool,
    row: &[Lexeme<u32>],
) -> Result<(), NoMemory>
    ensures { OnOk result (AreOfferedAt ways.old ways.new depth set row.now) }
{
    push_found(&mut ways.tags, tag_at(row))?;
    if depth > 0 {
        return Ok(());
    }
    push_found(&mut ways.declared, declared_at(depth, set, row))?;
    push_found(&mut ways.pointers, pointer_at(depth, row))?;
    push_found(&mut ways.bracketed, bracketed_at(depth, set, row))
}

/// Whether a `{` behind two tokens opens the braces of an enum.
fn opens_enum(earlier: Symbol, before: Symbol) -> bool
    ensures { result ≡ opens_enum earlier before }
{
    before.is_enumeration() || before.is_word() && earlier.is_enumeration()
}

/// Whether the innermost open bracket is a brace of an enum.
fn is_in_enum(brackets: &[bool]) -> bool
    ensures { result ≡ is_in_enum brackets.now }
{
    match brackets.last() {
        Some(innermost) => *innermost,
        None => false,
    }
}

/// Puts a bracket that opens at a token on those that are open, or takes off the one that is closed there.
pub(crate) fn turn_brackets(
    brackets: &mut Vec<bool>,
    earlier: Symbol,
    before: Symbol,
    symbol: Symbol,
) -> Result<(), NoMemory>
    ensures { OnOk result (brackets.new.items ≡ brackets_after earlier before brackets.old.items symbol) }
{
    if symbol.is_opening() {
        brackets.push(symbol.is_left_brace() && opens_enum(earlier, before))?;
        return Ok(());
    }
    if symbol.is_closing() {
        let _closed = brackets.pop();
    }
    Ok(())
}

/// The word of a token at which an enum constant is named.
fn enumerator_at(brackets: &[bool], before: Symbol, token: Lexeme<u32>) -> Option<Lexeme<u32>>
    ensures { option_to_list result ≡ enumerator_at brackets.now before token }
{
    if is_in_enum(brackets)
        && token.symbol.is_word()
        && (before.is_left_brace() || before.is_comma())
    {
        return Some(token);
    }
    None
}

/// Appends the word of a token at which an enum constant is named.
pub(crate) fn push_enumerator(
    ways: &mut Ways,
    brackets: &[bool],
    before: Symbol,
    token: Lexeme<u32>,
) -> Result<(), NoMemory>
    ensures { OnOk result (IsEnumeratorAt ways.old ways.new brackets.now before token) }
{
    push_found(
        &mut ways.enumerators,
        enumerator_at(brackets, before, token),
    )
}

/// The words that a row of tokens offers as names, in the five ways, where those of each way are known.
pub(crate) fn offered(
    alloc: Global,
    row: &[Lexeme<u32>],
    ways: &Ways,
) -> Result<Vec<Lexeme<u32>>, NoMemory>
    requires { AreOffered ways.now row.now }
    ensures { IfOk result (λ found. found.items ≡ offered row.now) }
{
    let mut found = Vec::new(alloc);
    found.extend_from_slice(ways.tags.as_slice())?;
    found.extend_from_slice(ways.enumerators.as_slice())?;
    found.extend_from_slice(ways.declared.as_slice())?;
    found.extend_from_slice(ways.pointers.as_slice())?;
    found.extend_from_slice(ways.bracketed.as_slice())?;
    Ok(found)
}
