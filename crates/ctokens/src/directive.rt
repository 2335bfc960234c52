//! Directive lines.

ghost use Rattle.std.specs.Prelude.{◌≡◌};
ghost use Rattle.ctokens.specs.Directive.{ends_word, is_pragma, is_pack, is_passed_over};

use crate::blanks::{begins_with_blank, behind, unblanked};
use crate::byte::is_word_byte;

/// Whether the line begins with `#pragma` by the letter.
fn is_pragma(line: &[u8]) -> bool
    ensures { result ≡ is_pragma line.now }
{
    line.starts_with(b"#pragma")
}

/// Whether the line is a `#pragma pack`.
pub(crate) fn is_pack(line: &[u8]) -> bool
    ensures { result ≡ is_pack line.now }
{
    if !is_pragma(line) {
        return false;
    }
    let rest = behind(7, line);
    if !begins_with_blank(rest) {
        return false;
    }
    let word = unblanked(rest);
    word.starts_with(b"pack") && ends_word(behind(4, word))
}

/// Whether the line is an `#ident` or another `#pragma`.
pub(crate) fn is_passed_over(line: &[u8]) -> bool
    ensures { result ≡ is_passed_over line.now }
{
    if is_pack(line) {
        return false;
    }
    is_pragma(line) || line.starts_with(b"#ident")
}

/// Whether nothing goes on with a word here.
fn ends_word(text: &[u8]) -> bool
    ensures { result ≡ ends_word text.now }
{
    match text {
        [] => true,
        [byte, ..] => !is_word_byte(*byte),
    }
}
