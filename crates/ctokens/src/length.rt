//! How many bytes a token takes where it stands at the front of a text.

ghost use Rattle.std.specs.Prelude.{◌≡◌, ◌≤◌, length};
ghost use Rattle.ctokens.specs.Spelled.{is_plain, is_simple_escape};
ghost use Rattle.ctokens.specs.Lengths.{continued_length, word_length, digits_length, number_length, escape_length, character_length, letter_length, quoted_length, token_length, begins_with_digit, kind_at};

use crate::byte::{Class, begins_word, continues, is_digit, is_octal_digit, leading};
use crate::closing::{Closing, closing_length};
use crate::mark::mark_length;
use crate::token::TokenKind;

/// The kind that a token at the front of the text can have, by its first two bytes.
#[tactic(auto, unfolding(crate::specs::Lengths::kind_at))]
pub(crate) fn kind_at(text: &[u8]) -> TokenKind
    ensures { result ≡ kind_at text.now }
{
    let [first, others @ ..] = text else {
        return TokenKind::Mark;
    };
    if begins_word(*first) {
        return TokenKind::Word;
    }
    if is_digit(*first) {
        return TokenKind::Number;
    }
    if *first == b'\'' {
        return TokenKind::Letter;
    }
    if *first == b'"' {
        return TokenKind::Quoted;
    }
    if *first == b'.' && begins_with_digit(others) {
        return TokenKind::Number;
    }
    TokenKind::Mark
}

/// Whether the first byte of the text is a digit; an empty text has none.
fn begins_with_digit(text: &[u8]) -> bool
    ensures { result ≡ begins_with_digit text.now }
{
    match text {
        [] => false,
        [first, ..] => is_digit(*first),
    }
}

/// How many bytes the longest token of the kind at the front of the text takes, or 0 where there is none.
pub(crate) fn token_length(kind: TokenKind, text: &[u8]) -> usize
    ensures count { result ≡ token_length kind text.now }
    ensures inside { result ≤ length text.now }
{
    match kind {
        TokenKind::Word => word_length(text),
        TokenKind::Number => number_length(text),
        TokenKind::Letter => letter_length(text),
        TokenKind::Quoted => quoted_length(text),
        TokenKind::Mark => mark_length(text),
    }
}

/// How many bytes the longest word at the front of the text takes, or 0 where none stands there.
#[tactic(auto, unfolding(crate::specs::Lengths::word_length))]
fn word_length(text: &[u8]) -> usize
    ensures count { result ≡ word_length text.now }
    ensures inside { result ≤ length text.now }
{
    let [first, others @ ..] = text else { return 0 };
    if !begins_word(*first) {
        return 0;
    }
    1 + leading(Class::Word, others)
}

/// How many bytes the longest preprocessing number (C11 6.4.8) at the front takes, or 0 where none stands there.
#[tactic(auto, unfolding(crate::specs::Lengths::number_length))]
fn number_length(text: &[u8]) -> usize
    ensures count { result ≡ number_length text.now }
    ensures inside { result ≤ length text.now }
{
    let [first, others @ ..] = text else { return 0 };
    if *first != b'.' {
        return digits_length(text);
    }
    let count = digits_length(others);
    if count == 0 {
        return 0;
    }
    1 + count
}

/// How many bytes a number takes that begins with a digit.
#[tactic(auto, unfolding(crate::specs::Lengths::digits_length))]
fn digits_length(text: &[u8]) -> usize
    ensures count { result ≡ digits_length text.now }
    ensures inside { result ≤ length text.now }
{
    let [first, others @ ..] = text else { return 0 };
    if !is_digit(*first) {
        return 0;
    }
    1 + continued_length(*first, others)
}

/// How many bytes go on with a number, behind the byte `before`.
fn continued_length(before: u8, text: &[u8]) -> usize
    ensures count { result ≡ continued_length before text.now }
    ensures inside { result ≤ length text.now }
{
    let mut last = before;
    for (index, byte) in text.iter().enumerate() {
        if !continues(last, *byte) {
            return index;
        }
        last = *byte;
    }
    text.len()
}

/// How many bytes the character constant (C11 6.4.4.4) at the front takes, its quotes too, or 0 where none stands there.
#[tactic(auto, unfolding(crate::specs::Lengths::letter_length))]
fn letter_length(text: &[u8]) -> usize
    ensures count { result ≡ letter_length text.now }
    ensures inside { result ≤ length text.now }
{
    let [first, others @ ..] = text else { return 0 };
    if *first != b'\'' {
        return 0;
    }
    let count = character_length(others);
    if count == 0 || count >= others.len() {
        return 0;
    }
    if others[count] != b'\'' {
        return 0;
    }
    2 + count
}

/// How many bytes the one byte or escape between the quotes of a character constant takes.
#[tactic(auto, unfolding(crate::specs::Lengths::character_length))]
fn character_length(text: &[u8]) -> usize
    ensures count { result ≡ character_length text.now }
    ensures inside { result ≤ length text.now }
{
    let [first, others @ ..] = text else { return 0 };
    if *first != b'\\' {
        if is_plain(*first) {
            return 1;
        }
        return 0;
    }
    let count = escape_length(others);
    if count == 0 {
        return 0;
    }
    1 + count
}

/// How many bytes an escape takes behind its `\`.
#[tactic(auto, unfolding(crate::specs::Lengths::escape_length))]
fn escape_length(text: &[u8]) -> usize
    ensures count { result ≡ escape_length text.now }
    ensures inside { result ≤ length text.now }
{
    let [first, others @ ..] = text else { return 0 };
    if is_simple_escape(*first) {
        return 1;
    }
    if is_octal_digit(*first) {
        return leading(Class::Octal, text).min(3);
    }
    if *first != b'x' {
        return 0;
    }
    let count = leading(Class::Hexadecimal, others);
    if count == 0 {
        return 0;
    }
    1 + count
}

/// A byte of a character constant that stands for itself.
fn is_plain(byte: u8) -> bool
    ensures { result ≡ is_plain byte }
{
    !(byte == b'\'' || byte == b'\\' || byte == b'\n')
}

/// One of the letters and marks that stand behind a `\`.
fn is_simple_escape(byte: u8) -> bool
    ensures { result ≡ is_simple_escape byte }
{
    b"'\"?\\abfnrtv".contains(&byte)
}

/// How many bytes the string literal (C11 6.4.5) at the front takes, its quotes too, or 0 where none stands there.
#[tactic(auto, unfolding(crate::specs::Lengths::quoted_length))]
fn quoted_length(text: &[u8]) -> usize
    ensures count { result ≡ quoted_length text.now }
    ensures inside { result ≤ length text.now }
{
    let [first, others @ ..] = text else { return 0 };
    if *first != b'"' {
        return 0;
    }
    match closing_length(Closing::Quote, others) {
        None => 0,
        Some(count) => 1 + count,
    }
}
