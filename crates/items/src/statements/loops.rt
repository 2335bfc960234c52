ghost use Rattle.std.specs.Prelude.{◌≤◌, ◌∷◌, ◌++◌, [], IfOk};
ghost use Rattle.ctrees.specs.Levels.{expr_levels, stmt_levels, maybe_levels};
ghost use Rattle.typing.specs.Statements.{Condition, Dropped, ValueOf, Whole, LoopBody, optional};
ghost use Rattle.expressions.specs.Found.{nothing};
ghost use Rattle.expressions.specs.Nests.{Nests};
ghost use Rattle.expressions.specs.Walked.{Walked};
ghost use Rattle.items.specs.statements.Parts.{SaysPart, SaysParts};

use crate::statements::demands::Demand;
use crate::statements::taken::{optional, value};
use cbase::{Boxed, Expr, NoMemory, Stmt};
use expressions::{Checker, Context, Found, Part, Told, Within};
use std::alloc::Global;

/// The body of a loop, which is a block, also without braces (C11 6.8.5p5). In it `break` and `continue` may stand, and behind it where they might before.
fn loop_body<F: Fn(&mut Context, Within, Part<'_>) -> Result<Found<Told>, NoMemory>>(
    checker: &Checker<F>,
    alloc: Global,
    context: &mut Context,
    body: &Stmt,
) -> Result<Found<()>, NoMemory>
    requires nests { Nests checker.now.abi checker.now.depth (F.pre checker.now.inner) (F.post checker.now.inner) }
    requires deep { stmt_levels body.now ≤ checker.now.depth }
    ensures { IfOk result (λ found. Walked (SaysPart checker.now.abi (LoopBody body.now)) nothing context.old context.new found) }
{
    let in_loop = context.is_in_loop();
    context.enter(alloc)?;
    context.set_loop(true);
    let found = checker.ask_statement(context, body)?;
    context.leave();
    context.set_loop(in_loop);
    Ok(found)
}

/// The parts of a `while` (C11 6.8.5.1): its condition, and its body.
pub(crate) fn while_loop<F: Fn(&mut Context, Within, Part<'_>) -> Result<Found<Told>, NoMemory>>(
    checker: &Checker<F>,
    alloc: Global,
    context: &mut Context,
    test: &Expr,
    body: &Stmt,
) -> Result<Found<()>, NoMemory>
    requires nests { Nests checker.now.abi checker.now.depth (F.pre checker.now.inner) (F.post checker.now.inner) }
    requires test { expr_levels test.now ≤ checker.now.depth }
    requires body { stmt_levels body.now ≤ checker.now.depth }
    ensures { IfOk result (λ found. Walked (SaysParts checker.now.abi (ValueOf Condition test.now ∷ LoopBody body.now ∷ [])) nothing context.old context.new found) }
{
    match value(checker, context, Demand::Condition, test)? {
        Found::Passes(()) => loop_body(checker, alloc, context, body),
        Found::Refused(fault) => Ok(Found::Refused(fault)),
    }
}

/// The parts of a `do` (C11 6.8.5.2): its body, and its condition behind it.
pub(crate) fn do_loop<F: Fn(&mut Context, Within, Part<'_>) -> Result<Found<Told>, NoMemory>>(
    checker: &Checker<F>,
    alloc: Global,
    context: &mut Context,
    body: &Stmt,
    test: &Expr,
) -> Result<Found<()>, NoMemory>
    requires nests { Nests checker.now.abi checker.now.depth (F.pre checker.now.inner) (F.post checker.now.inner) }
    requires body { stmt_levels body.now ≤ checker.now.depth }
    requires test { expr_levels test.now ≤ checker.now.depth }
    ensures { IfOk result (λ found. Walked (SaysParts checker.now.abi (LoopBody body.now ∷ ValueOf Condition test.now ∷ [])) nothing context.old context.new found) }
{
    match loop_body(checker, alloc, context, body)? {
        Found::Passes(()) => value(checker, context, Demand::Condition, test),
        Found::Refused(fault) => Ok(Found::Refused(fault)),
    }
}

/// The parts of a `for` (C11 6.8.5.3): what comes first, its condition and what is done after each turn, where there are any, and its body.
pub(crate) fn for_loop<F: Fn(&mut Context, Within, Part<'_>) -> Result<Found<Told>, NoMemory>>(
    checker: &Checker<F>,
    alloc: Global,
    context: &mut Context,
    first: &Stmt,
    test: &Option<Boxed<Expr>>,
    next: &Option<Boxed<Expr>>,
    body: &Stmt,
) -> Result<Found<()>, NoMemory>
    requires nests { Nests checker.now.abi checker.now.depth (F.pre checker.now.inner) (F.post checker.now.inner) }
    requires first { stmt_levels first.now ≤ checker.now.depth }
    requires test { maybe_levels test.now ≤ checker.now.depth }
    requires next { maybe_levels next.now ≤ checker.now.depth }
    requires body { stmt_levels body.now ≤ checker.now.depth }
    ensures { IfOk result (λ found. Walked (SaysParts checker.now.abi (Whole first.now ∷ (optional Condition test.now ++ (optional Dropped next.now ++ LoopBody body.now ∷ [])))) nothing context.old context.new found) }
{
    match checker.ask_statement(context, first)? {
        Found::Passes(()) => {}
        Found::Refused(fault) => return Ok(Found::Refused(fault)),
    }
    match optional(checker, context, Demand::Condition, test)? {
        Found::Passes(()) => {}
        Found::Refused(fault) => return Ok(Found::Refused(fault)),
    }
    match optional(checker, context, Demand::Dropped, next)? {
        Found::Passes(()) => {}
        Found::Refused(fault) => return Ok(Found::Refused(fault)),
    }
    loop_body(checker, alloc, context, body)
}
