ghost use Rattle.std.specs.Prelude.{◌≡◌, ◌+◌, ℕ, false, true, take, Some, None, IfOk, IfSome, IfNone, IsSome};
ghost use Rattle.cbase.specs.declared.tree.expr.Expr.{Expr};
ghost use Rattle.cevents.specs.Building.{built_all};
ghost use Rattle.cevents.specs.Workshop.{expr_alone, start};
ghost use Rattle.ctokens.specs.TokenList.{AreNumbered};
ghost use Rattle.cgrammar.specs.Readings.{IsExpressionAt, IsLongestExpressionAt, most_levels};
ghost use Rattle.cgrammar.specs.Terminals.{last_place};
ghost use Rattle.ctokens.specs.InText.{LieInText};

use crate::ends::number_behind;
use crate::front::front_at;
use cbase::{Expr, NoMemory};
use cbuild::{Unbuilt, build_expr};
use cgrammar::{Scope, Terminal};
use cparser::{Written, read_expression};
use ctokens::Tokens;
use std::alloc::Global;

/// An expression that is read at a token of a text.
#[derive(Drop)]
pub struct ReadExpr {
    /// Its tree. The expressions in it are numbered from 0, each where it ends.
    pub expr: Expr,
    /// One more than the number of its last token, among the tokens of the text.
    pub after: u32,
}

/// The longest expression of at most 1,024 levels that begins at the token `at` of a text, where these names are in scope
/// (C11 6.5). `None` where no such expression begins there. The tokens are those of some text, numbered from 0.
///
/// An error says that memory is wanting.
pub fn read_expr(
    alloc: Global,
    t: &Tokens,
    scope: &Scope,
    at: u32,
) -> Result<Option<ReadExpr>, NoMemory>
    requires text { LieInText t.now }
    requires numbered { AreNumbered t.now.list }
    ensures longest { IfOk result (λ found. IfSome found (λ read. IsLongestExpressionAt most_levels t.now scope.now at read.after read.expr)) }
    ensures none { IfOk result (λ found. IfNone found ((expr : Expr) (after : ℕ) → IsExpressionAt most_levels t.now scope.now at after expr → ⊥)) }
{
    let front = front_at(alloc, t, at)?;
    let row = front.row.as_slice();
    let written = read_expression(alloc, row, front.start, scope)?;
    expression_of(alloc, row, &written)
}

/// The expression that is written, where one is found, with the number behind its last token.
fn expression_of(
    alloc: Global,
    row: &[Terminal<'_>],
    written: &Written,
) -> Result<Option<ReadExpr>, NoMemory>
    requires { written.now.found ≡ true → IsSome (expr_alone (built_all row.now written.now.events (Some start))) }
    ensures found { IfOk result (λ found. IfSome found (λ read. written.now.found ≡ true)) }
    ensures expr { IfOk result (λ found. IfSome found (λ read. expr_alone (built_all row.now written.now.events (Some start)) ≡ Some read.expr)) }
    ensures after { IfOk result (λ found. IfSome found (λ read. read.after ≡ (last_place (take written.now.at row.now)).at + 1)) }
    ensures none { IfOk result (λ found. IfNone found (written.now.found ≡ false)) }
{
    if !written.found {
        return Ok(None);
    }
    let after = number_behind(row, written.at)?;
    match build_expr(alloc, row, written.events.as_slice()) {
        Ok(expr) => Ok(Some(ReadExpr { expr, after })),
        Err(Unbuilt::NoMemory) => Err(NoMemory),
        Err(Unbuilt::Wrong) => unreachable!(),
    }
}
