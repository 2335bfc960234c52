ghost use Rattle.std.specs.Prelude.{◌≡◌, ◌+◌, ℕ, List, false, true, take, Some, None, IfOk, IfSome, IfNone, IsSome};
ghost use Rattle.cbase.specs.declared.tree.stmt.Stmt.{Stmt};
ghost use Rattle.cevents.specs.Building.{built_all};
ghost use Rattle.cevents.specs.Workshop.{block_alone, start};
ghost use Rattle.ctokens.specs.TokenList.{AreNumbered};
ghost use Rattle.cgrammar.specs.Readings.{IsBlockAt, most_levels};
ghost use Rattle.cgrammar.specs.Terminals.{last_place};
ghost use Rattle.ctokens.specs.InText.{LieInText};

use crate::ends::number_behind;
use crate::front::front_at;
use cbase::{List, NoMemory, Stmt};
use cbuild::{Unbuilt, build_block};
use cgrammar::{Scope, Terminal};
use cparser::{Written, read_statements};
use ctokens::Tokens;
use std::alloc::Global;

/// A block that is read at a token of a text.
#[derive(Drop)]
pub struct ReadBlock {
    /// Its declarations and statements, in order. Its expressions are numbered from 0, each where it ends.
    pub body: List<Stmt>,
    /// One more than the number of its `}`, among the tokens of the text.
    pub after: u32,
}

/// The block of at most 1,024 levels that begins at the token `at` of a text, where these names are in scope around it
/// (C11 6.8.2). `None` where no such block begins there. The tokens are those of some text, numbered from 0.
///
/// An error says that memory is wanting.
pub fn read_block(
    alloc: Global,
    t: &Tokens,
    scope: &Scope,
    at: u32,
) -> Result<Option<ReadBlock>, NoMemory>
    requires text { LieInText t.now }
    requires numbered { AreNumbered t.now.list }
    ensures block { IfOk result (λ found. IfSome found (λ read. IsBlockAt most_levels t.now scope.now at read.after read.body)) }
    ensures none { IfOk result (λ found. IfNone found ((body : List Stmt) (after : ℕ) → IsBlockAt most_levels t.now scope.now at after body → ⊥)) }
{
    let front = front_at(alloc, t, at)?;
    let row = front.row.as_slice();
    let written = read_statements(alloc, row, front.start, scope)?;
    block_of(alloc, row, &written)
}

/// The block that is written, where one is found, with the number behind its last token.
fn block_of(
    alloc: Global,
    row: &[Terminal<'_>],
    written: &Written,
) -> Result<Option<ReadBlock>, NoMemory>
    requires { written.now.found ≡ true → IsSome (block_alone (built_all row.now written.now.events (Some start))) }
    ensures found { IfOk result (λ found. IfSome found (λ read. written.now.found ≡ true)) }
    ensures block { IfOk result (λ found. IfSome found (λ read. block_alone (built_all row.now written.now.events (Some start)) ≡ Some read.body)) }
    ensures after { IfOk result (λ found. IfSome found (λ read. read.after ≡ (last_place (take written.now.at row.now)).at + 1)) }
    ensures none { IfOk result (λ found. IfNone found (written.now.found ≡ false)) }
{
    if !written.found {
        return Ok(None);
    }
    let after = number_behind(row, written.at)?;
    match build_block(alloc, row, written.events.as_slice()) {
        Ok(body) => Ok(Some(ReadBlock { body, after })),
        Err(Unbuilt::NoMemory) => Err(NoMemory),
        Err(Unbuilt::Wrong) => unreachable!(),
    }
}
