ghost use Rattle.std.specs.Prelude.{◌≤◌, ◌∷◌, Option, IfOk, IfSome};
ghost use Rattle.ctrees.specs.Levels.{expr_levels, stmt_levels};
ghost use Rattle.typing.specs.Statements.{Condition, ValueOf, Branch, other_branch};
ghost use Rattle.expressions.specs.Found.{nothing};
ghost use Rattle.expressions.specs.Nests.{Nests};
ghost use Rattle.expressions.specs.Walked.{Walked};
ghost use Rattle.items.specs.statements.Parts.{SaysParts};

use crate::statements::blocks::branch;
use crate::statements::demands::Demand;
use crate::statements::taken::value;
use cbase::{Boxed, Expr, NoMemory, Stmt};
use expressions::{Checker, Context, Found, Part, Told, Within};
use std::alloc::Global;

/// The parts of an `if` (C11 6.8.4.1): its condition, the statement behind it, and that behind `else`, where there is one.
pub(crate) fn choose<F: Fn(&mut Context, Within, Part<'_>) -> Result<Found<Told>, NoMemory>>(
    checker: &Checker<F>,
    alloc: Global,
    context: &mut Context,
    test: &Expr,
    yes: &Stmt,
    no: &Option<Boxed<Stmt>>,
) -> Result<Found<()>, NoMemory>
    requires nests { Nests checker.now.abi checker.now.depth (F.pre checker.now.inner) (F.post checker.now.inner) }
    requires test { expr_levels test.now ≤ checker.now.depth }
    requires yes { stmt_levels yes.now ≤ checker.now.depth }
    requires no { IfSome no.now (λ stmt. stmt_levels stmt ≤ checker.now.depth) }
    ensures { IfOk result (λ found. Walked (SaysParts checker.now.abi (ValueOf Condition test.now ∷ Branch yes.now ∷ other_branch no.now)) nothing context.old context.new found) }
{
    match value(checker, context, Demand::Condition, test)? {
        Found::Passes(()) => {}
        Found::Refused(fault) => return Ok(Found::Refused(fault)),
    }
    match branch(checker, alloc, context, yes)? {
        Found::Passes(()) => {}
        Found::Refused(fault) => return Ok(Found::Refused(fault)),
    }
    match no {
        None => Ok(Found::Passes(())),
        Some(no) => branch(checker, alloc, context, no.get()),
    }
}
