ghost use Rattle.std.specs.Prelude.{◌≡◌};
ghost use Rattle.cgrammar.specs.Operators.{row_of};
ghost use Rattle.cconstructs.specs.Constructs.{word_rows};
ghost use Rattle.cconstructs.specs.Finding.{is_called, is_pointed, mark_number, number_at, number_of, word_number};

use crate::before::Before;
use cgrammar::{Terminal, entry_of};
use ctokens::TokenKind;

/// Words that show a construct, whatever stands around them.
const WORDS: [(&'static str, u8); 13] = [
    ("goto", 1),
    ("switch", 2),
    ("union", 3),
    ("float", 4),
    ("double", 4),
    ("__float128", 4),
    ("asm", 6),
    ("__asm", 6),
    ("__asm__", 6),
    ("_Complex", 8),
    ("__complex__", 8),
    ("_Thread_local", 9),
    ("__thread", 9),
];

/// What the table of words says of these bytes.
fn row_of_words(bytes: &[u8]) -> Option<u8>
    ensures { result ≡ row_of bytes.now word_rows }
{
    entry_of(WORDS.as_slice(), bytes)
}

/// The number of a word that shows a construct (C11 6.4.1, 6.7.2, 6.8.4.2, 6.8.6.1).
#[tactic(auto, unfolding(crate::specs::Finding::word_number))]
fn word_number(bytes: &[u8]) -> Option<u8>
    ensures { result ≡ word_number bytes.now }
{
    if bytes.starts_with(b"_Float") {
        return Some(4);
    }
    row_of_words(bytes)
}

/// The number of a mark: `...` (C11 6.7.6.3), and a `*` where one of a function pointer would stand, as `pointed` says.
fn mark_number(pointed: bool, bytes: &[u8]) -> Option<u8>
    ensures { result ≡ mark_number pointed bytes.now }
{
    if bytes == b"...".as_slice() {
        return Some(5);
    }
    if pointed && bytes == b"*".as_slice() {
        return Some(20);
    }
    None
}

/// The number of a token, if it shows a construct. `guarded` says whether it stands in the brackets of an `__assert_fail`,
/// and `pointed` whether a `*` there is that of a function pointer.
fn number_of(guarded: bool, pointed: bool, token: &Terminal<'_>) -> Option<u8>
    ensures { result ≡ number_of token.now.kind guarded pointed token.now.bytes }
{
    match token.kind() {
        TokenKind::Word => word_number(token.bytes()),
        TokenKind::Number => {
            if token.is_constant() {
                return None;
            }
            Some(4)
        }
        TokenKind::Letter => None,
        TokenKind::Quoted => {
            if guarded {
                return None;
            }
            Some(10)
        }
        TokenKind::Mark => mark_number(pointed, token.bytes()),
    }
}

/// Whether `)` and `(` begin the row.
fn is_called(row: &[Terminal<'_>]) -> bool
    ensures { result ≡ is_called row.now }
{
    match row {
        [] => false,
        [_] => false,
        [closing, opening, ..] => closing.is_mark(b")") && opening.is_mark(b"("),
    }
}

/// Whether what stands behind the `*` of a function pointer begins the row.
fn is_pointed(row: &[Terminal<'_>]) -> bool
    ensures { result ≡ is_pointed row.now }
{
    match row {
        [] => false,
        [first, others @ ..] => {
            if is_called(row) {
                return true;
            }
            first.is_name() && is_called(others)
        }
    }
}

/// The number of the construct that the row's first token shows, if it shows one. `before` is known of that token.
pub fn number_at(before: Before, row: &[Terminal<'_>]) -> Option<u8>
    ensures { result ≡ number_at before row.now }
{
    match row {
        [] => None,
        [token, others @ ..] => number_of(
            before.guarded > 0,
            before.opened && is_pointed(others),
            token,
        ),
    }
}
