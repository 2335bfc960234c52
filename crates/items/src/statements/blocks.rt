ghost use Rattle.std.specs.Prelude.{◌≤◌, All, IfOk};
ghost use Rattle.ctrees.specs.Levels.{stmt_levels};
ghost use Rattle.typing.specs.Statements.{StatementsOf, Branch};
ghost use Rattle.expressions.specs.Found.{nothing};
ghost use Rattle.expressions.specs.Nests.{Nests};
ghost use Rattle.expressions.specs.Walked.{Walked};
ghost use Rattle.items.specs.statements.Parts.{SaysPart};

use cbase::{NoMemory, Stmt};
use expressions::{Checker, Context, Found, Part, Told, Within};
use std::alloc::Global;

/// The statements of a block, which is a scope of its own (C11 6.8.2p2). It has no value.
pub(crate) fn block<F: Fn(&mut Context, Within, Part<'_>) -> Result<Found<Told>, NoMemory>>(
    checker: &Checker<F>,
    alloc: Global,
    context: &mut Context,
    body: &[Stmt],
) -> Result<Found<()>, NoMemory>
    requires nests { Nests checker.now.abi checker.now.depth (F.pre checker.now.inner) (F.post checker.now.inner) }
    requires deep { All (λ stmt. stmt_levels stmt ≤ checker.now.depth) body.now }
    ensures { IfOk result (λ found. Walked (SaysPart checker.now.abi (StatementsOf body.now)) nothing context.old context.new found) }
{
    context.enter(alloc)?;
    let found = checker.statements(context, body)?;
    context.leave();
    match found {
        Found::Passes(_) => Ok(Found::Passes(())),
        Found::Refused(fault) => Ok(Found::Refused(fault)),
    }
}

/// A statement in an `if`, which is a block, also without braces (C11 6.8.4p3).
pub(crate) fn branch<F: Fn(&mut Context, Within, Part<'_>) -> Result<Found<Told>, NoMemory>>(
    checker: &Checker<F>,
    alloc: Global,
    context: &mut Context,
    stmt: &Stmt,
) -> Result<Found<()>, NoMemory>
    requires nests { Nests checker.now.abi checker.now.depth (F.pre checker.now.inner) (F.post checker.now.inner) }
    requires deep { stmt_levels stmt.now ≤ checker.now.depth }
    ensures { IfOk result (λ found. Walked (SaysPart checker.now.abi (Branch stmt.now)) nothing context.old context.new found) }
{
    context.enter(alloc)?;
    let found = checker.ask_statement(context, stmt)?;
    context.leave();
    Ok(found)
}
