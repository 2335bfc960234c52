ghost use Rattle.std.specs.Prelude.{◌≡◌, ◌≤◌, IfOk};
ghost use Rattle.cbase.specs.declared.abi.Abi.{Abi};
ghost use Rattle.ctrees.specs.Levels.{maybe_levels};
ghost use Rattle.typing.specs.Statements.{LeavesLoop, ReturnsNothing, returned};
ghost use Rattle.expressions.specs.Found.{nothing};
ghost use Rattle.expressions.specs.Nests.{Nests};
ghost use Rattle.expressions.specs.Walked.{Walked};
ghost use Rattle.items.specs.statements.Parts.{SaysPart};

use crate::statements::demands::{Demand, fault_of_return};
use crate::statements::taken::value;
use cbase::{Boxed, Expr, NoMemory, Place};
use expressions::{Checker, Context, Found, Part, Told, Within};
use typing::Fault;
use typing::ctypes::Broken;

/// `break` and `continue`, of which the word stands there: outside of the body of a loop it is rule 10 at the word (C11 6.8.6.2p1, 6.8.6.3p1).
pub(crate) fn leave_loop(context: &Context, word: Place) -> Found<()>
    ensures { (abi : Abi) → Walked (SaysPart abi (LeavesLoop word)) nothing context.now context.now result }
{
    if context.is_in_loop() {
        Found::Passes(())
    } else {
        Found::Refused(Fault {
            place: word,
            broken: Broken::Rule(10),
        })
    }
}

/// `return` without a value, of which the word stands there: it stands in a function that has no result, else it is rule 11 at the word (C11
/// 6.8.6.4p1).
fn return_nothing(context: &Context, word: Place) -> Found<()>
    ensures { (abi : Abi) → Walked (SaysPart abi (ReturnsNothing word)) nothing context.now context.now result }
{
    match fault_of_return(context, word) {
        None => Found::Passes(()),
        Some(fault) => Found::Refused(fault),
    }
}

/// `return`, with a value or without (C11 6.8.6.4).
pub(crate) fn return_value<F: Fn(&mut Context, Within, Part<'_>) -> Result<Found<Told>, NoMemory>>(
    checker: &Checker<F>,
    context: &mut Context,
    word: Place,
    expr: &Option<Boxed<Expr>>,
) -> Result<Found<()>, NoMemory>
    requires nests { Nests checker.now.abi checker.now.depth (F.pre checker.now.inner) (F.post checker.now.inner) }
    requires deep { maybe_levels expr.now ≤ checker.now.depth }
    ensures { IfOk result (λ found. Walked (SaysPart checker.now.abi (returned word expr.now)) nothing context.old context.new found) }
{
    match expr {
        None => Ok(return_nothing(context, word)),
        Some(expr) => {
            let result = context.result();
            value(checker, context, Demand::Returned(word, result), expr.get())
        }
    }
}
