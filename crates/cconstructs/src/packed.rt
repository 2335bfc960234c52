ghost use Rattle.std.specs.Prelude.{◌≡◌, ◌≤◌, min};
ghost use Rattle.cconstructs.specs.LayoutFinding.{closes_last, ends_behind, first_closing, has_members, is_behind, is_filled, is_tagged, least_struct, lesser, packed_struct, struct_at};

use crate::part::{closes, unclosed_behind};
use cgrammar::Terminal;

/// Whether `{` with no `}` behind it begins the row.
fn is_filled(row: &[Terminal<'_>]) -> bool
    ensures { result ≡ is_filled row.now }
{
    match row {
        [] => false,
        [_] => false,
        [opening, next, ..] => opening.is_mark(b"{") && !next.is_mark(b"}"),
    }
}

/// Whether a tag, and `{` with no `}` behind it, begin the row.
fn is_tagged(row: &[Terminal<'_>]) -> bool
    ensures { result ≡ is_tagged row.now }
{
    match row {
        [] => false,
        [tag, others @ ..] => tag.is_name() && is_filled(others),
    }
}

/// Whether `struct` with members begins the row (C11 6.7.2.1).
fn has_members(row: &[Terminal<'_>]) -> bool
    ensures { result ≡ has_members row.now }
{
    match row {
        [] => false,
        [word, others @ ..] => {
            if !word.is_word(b"struct") {
                return false;
            }
            is_filled(others) || is_tagged(others)
        }
    }
}

/// Whether the token closes the last of the open brackets, of which there are `unclosed` before it.
fn closes_last(unclosed: usize, token: &Terminal<'_>) -> bool
    ensures { result ≡ closes_last unclosed token.now }
{
    closes(token) && unclosed <= 1
}

/// Whether the first bracket that opens in the row is closed at the line or behind it.
#[tactic(auto, unfolding(crate::specs::LayoutFinding::first_closing))]
fn closes_behind(line: u32, row: &[Terminal<'_>]) -> bool
    ensures { result ≡ is_behind line (first_closing 0 row.now) }
{
    let mut unclosed: usize = 0;
    for token in row {
        if closes_last(unclosed, token) {
            return line <= token.place().at;
        }
        unclosed = unclosed_behind(unclosed, token);
    }
    false
}

/// Whether a struct that begins the row with this word ends at the line or behind it.
fn ends_behind(line: u32, word: &Terminal<'_>, row: &[Terminal<'_>]) -> bool
    ensures { result ≡ ends_behind line word.now row.now }
{
    line <= word.place().at || closes_behind(line, row)
}

/// The number of the row's first token, where it is a `struct` with members that ends at the line or behind it.
fn struct_at(line: u32, row: &[Terminal<'_>]) -> Option<u32>
    ensures { result ≡ struct_at line row.now }
{
    match row {
        [] => None,
        [word, ..] => {
            if has_members(row) && ends_behind(line, word, row) {
                return Some(word.place().at);
            }
            None
        }
    }
}

/// The lesser of two numbers, where there are two, and otherwise the one that there is.
pub fn lesser(one: Option<u32>, other: Option<u32>) -> Option<u32>
    ensures { result ≡ lesser one other }
{
    match (one, other) {
        (None, other) => other,
        (Some(one), None) => Some(one),
        (Some(one), Some(other)) => Some(one.min(other)),
    }
}

/// The least number of a `struct` with members that ends at the line or behind it.
#[tactic(auto, using(crate::proofs::Least::least_next, crate::proofs::Least::least_end))]
fn least_struct(line: u32, row: &[Terminal<'_>]) -> Option<u32>
    ensures { result ≡ least_struct line row.now }
{
    let mut least = None;
    for at in 0..row.len() {
        least = lesser(least, struct_at(line, &row[at..]));
    }
    least
}

/// The least number of a `struct` with members that ends at the first of the lines or behind it; `None` where there is no
/// line or no such `struct`. Each line is how many tokens of the text stand before it.
pub fn packed_struct(lines: &[u32], row: &[Terminal<'_>]) -> Option<u32>
    ensures { result ≡ packed_struct lines.now row.now }
{
    match lines {
        [] => None,
        [line, ..] => least_struct(*line, row),
    }
}
