ghost use Rattle.std.specs.Prelude.{◌≤◌, length, IfOk};
ghost use Rattle.ctrees.specs.Levels.{expr_levels, maybe_levels};
ghost use Rattle.expressions.specs.Found.{nothing};
ghost use Rattle.expressions.specs.Nests.{Nests};
ghost use Rattle.expressions.specs.Walked.{Walked};
ghost use Rattle.items.specs.statements.Demands.{IsDemandBelow};
ghost use Rattle.items.specs.statements.Parts.{SaysValue, SaysOptional};

use crate::statements::demands::{Demand, fault_of_value};
use cbase::{Boxed, Expr, NoMemory};
use expressions::{Checker, Context, Found, Part, Told, Within};

/// A value that is taken for something: what is refused in it, or what is broken at it.
pub(crate) fn value<F: Fn(&mut Context, Within, Part<'_>) -> Result<Found<Told>, NoMemory>>(
    checker: &Checker<F>,
    context: &mut Context,
    demand: Demand,
    expr: &Expr,
) -> Result<Found<()>, NoMemory>
    requires nests { Nests checker.now.abi checker.now.depth (F.pre checker.now.inner) (F.post checker.now.inner) }
    requires deep { expr_levels expr.now ≤ checker.now.depth }
    requires demand { IsDemandBelow (length context.old.types) demand }
    ensures { IfOk result (λ found. Walked (SaysValue checker.now.abi demand expr.now) nothing context.old context.new found) }
{
    match checker.loaded(context, expr)? {
        Found::Passes(known) => match fault_of_value(context, demand, expr.place, known) {
            None => Ok(Found::Passes(())),
            Some(fault) => Ok(Found::Refused(fault)),
        },
        Found::Refused(fault) => Ok(Found::Refused(fault)),
    }
}

/// A value that may be left out.
pub(crate) fn optional<F: Fn(&mut Context, Within, Part<'_>) -> Result<Found<Told>, NoMemory>>(
    checker: &Checker<F>,
    context: &mut Context,
    demand: Demand,
    expr: &Option<Boxed<Expr>>,
) -> Result<Found<()>, NoMemory>
    requires nests { Nests checker.now.abi checker.now.depth (F.pre checker.now.inner) (F.post checker.now.inner) }
    requires deep { maybe_levels expr.now ≤ checker.now.depth }
    requires demand { IsDemandBelow (length context.old.types) demand }
    ensures { IfOk result (λ found. Walked (SaysOptional checker.now.abi demand expr.now) nothing context.old context.new found) }
{
    match expr {
        None => Ok(Found::Passes(())),
        Some(expr) => value(checker, context, demand, expr.get()),
    }
}

/// The same, where the expression stands in the tree itself.
pub(crate) fn optional_unboxed<
    F: Fn(&mut Context, Within, Part<'_>) -> Result<Found<Told>, NoMemory>,
>(
    checker: &Checker<F>,
    context: &mut Context,
    demand: Demand,
    expr: &Option<Expr>,
) -> Result<Found<()>, NoMemory>
    requires nests { Nests checker.now.abi checker.now.depth (F.pre checker.now.inner) (F.post checker.now.inner) }
    requires deep { maybe_levels expr.now ≤ checker.now.depth }
    requires demand { IsDemandBelow (length context.old.types) demand }
    ensures { IfOk result (λ found. Walked (SaysOptional checker.now.abi demand expr.now) nothing context.old context.new found) }
{
    match expr {
        None => Ok(Found::Passes(())),
        Some(expr) => value(checker, context, demand, expr),
    }
}
