ghost use Rattle.std.specs.Prelude.{◌≡◌, IfOk};
ghost use Rattle.cconstructs.specs.Constructs.{is_header};
ghost use Rattle.cconstructs.specs.Finding.{at_front, behind, guarded_behind, guarded_front};

use cbase::NoMemory;
use cgrammar::{Terminal, matched_length};
use std::alloc::Global;

/// What the tokens before a token say of it.
#[derive(Clone, Copy)]
pub struct Before {
    /// How many tokens from it on stand in the brackets of an `__assert_fail`.
    pub guarded: usize,
    /// Whether an `__assert_fail` stands directly before it.
    pub asserting: bool,
    /// Whether a `(` that may begin a function pointer stands directly before it.
    pub opened: bool,
    /// Whether a word with whose `(` no function pointer begins stands directly before it.
    pub headed: bool,
}

/// Before the first token of a row.
pub fn at_front() -> Before
    ensures { result ≡ at_front }
{
    Before {
        guarded: 0,
        asserting: false,
        opened: false,
        headed: false,
    }
}

/// Whether the token is a word with whose `(` no function pointer begins.
fn is_header(token: &Terminal<'_>) -> bool
    ensures { result ≡ is_header token.now }
{
    token.is_word(b"if")
        || token.is_word(b"while")
        || token.is_word(b"for")
        || token.is_word(b"sizeof")
}

/// How many tokens of the row stand before the `)` that closes a `(` that is open before it, where brackets are matched by
/// kind; 0 where none closes it so.
#[tactic(auto, unfolding(crate::specs::Finding::guarded_front), using(crate::proofs::Guarded::inside_found, crate::proofs::Guarded::inside_none))]
fn guarded_front(alloc: Global, row: &[Terminal<'_>]) -> Result<usize, NoMemory>
    ensures { IfOk result (λ count. count ≡ guarded_front row.now) }
{
    match matched_length(alloc, row, b')')? {
        None => Ok(0),
        Some(count) => Ok(count.saturating_sub(1)),
    }
}

/// How many tokens behind a token stand in the brackets of an `__assert_fail`.
fn guarded_behind(
    alloc: Global,
    guarded: usize,
    asserting: bool,
    token: &Terminal<'_>,
    others: &[Terminal<'_>],
) -> Result<usize, NoMemory>
    ensures { IfOk result (λ count. count ≡ guarded_behind guarded asserting token.now others.now) }
{
    if guarded > 0 {
        return Ok(guarded - 1);
    }
    if asserting && token.is_mark(b"(") {
        return guarded_front(alloc, others);
    }
    Ok(0)
}

/// What is known behind the row's first token, of which `before` is known; the same where the row has no token.
#[tactic(auto, unfolding(crate::specs::Finding::behind))]
pub fn behind(alloc: Global, before: Before, row: &[Terminal<'_>]) -> Result<Before, NoMemory>
    ensures { IfOk result (λ next. next ≡ behind before row.now) }
{
    match row {
        [] => Ok(before),
        [token, others @ ..] => Ok(Before {
            guarded: guarded_behind(alloc, before.guarded, before.asserting, token, others)?,
            asserting: token.is_word(b"__assert_fail"),
            opened: token.is_mark(b"(") && !before.headed,
            headed: is_header(token),
        }),
    }
}
