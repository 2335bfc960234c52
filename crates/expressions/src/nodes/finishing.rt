ghost use Rattle.std.specs.Prelude.{◌≡◌, ◌<◌, ℕ, length, Option, None, Some, IfOk};
ghost use Rattle.typing.specs.declared.ctypes.found.Broken.{Broken};
ghost use Rattle.expressions.specs.Blame.{blamed};
ghost use Rattle.expressions.specs.Numbers.{IsTypedBelow};
ghost use Rattle.expressions.specs.Finished.{FinishedBy};
ghost use Rattle.expressions.specs.Settled.{IsSettledBy};

use crate::context::Context;
use crate::found::Found;
use crate::handed_row::HandedRow;
use crate::known::Known;
use cbase::{NoMemory, Place};
use typing::Fault;
use typing::ctypes::{Broken, Outcome};

/// An expression by its number and its place.
#[derive(Clone, Copy)]
pub(crate) struct Node {
    /// Its number.
    pub(crate) number: u32,
    /// Its place.
    pub(crate) place: Place,
}

/// Where what is broken at an expression stands: one rule at a part of it, and all else at its own place.
#[derive(Clone, Copy)]
pub(crate) struct Blame {
    /// The place of the expression.
    pub(crate) mark: Place,
    /// The number of the rule.
    pub(crate) rule: u8,
    /// The place of the part.
    pub(crate) part: Place,
}

impl Blame {
    /// The place of what is broken.
    pub(crate) fn place(self, broken: Broken) -> Place
        ensures { result ≡ blamed self broken }
    {
        match broken {
            Broken::Construct(_) => self.mark,
            Broken::Rule(rule) => {
                if rule == self.rule {
                    self.part
                } else {
                    self.mark
                }
            }
        }
    }
}

/// Hands on an expression that passes.
pub(crate) fn pass(
    context: &mut Context,
    number: u32,
    known: Known,
) -> Result<Found<Known>, NoMemory>
    requires { known.ctype < length context.old.types }
    ensures { IfOk result (λ found. IsSettledBy None known number context.old context.new found) }
{
    let row = HandedRow::Expression {
        number,
        ctype: known.ctype,
        stands: known.stands,
        value: known.value,
    };
    match context.hand_on(row) {
        Ok(()) => Ok(Found::Passes(known)),
        Err(error) => Err(error),
    }
}

/// Finishes at an operator: what is broken is refused at the expression's place, and else the expression passes with its type.
pub(crate) fn finish(
    outcome: Result<Outcome, NoMemory>,
    context: &mut Context,
    node: Node,
    rest: Known,
) -> Result<Found<Known>, NoMemory>
    requires { IfOk outcome (λ answer. IsTypedBelow (length context.old.types) answer) }
    ensures { IfOk result (λ found. FinishedBy (λ broken. node.place) rest node.number context.old outcome context.new found) }
{
    match outcome {
        Ok(Outcome::Typed(ctype)) => pass(context, node.number, Known { ctype, ..rest }),
        Ok(Outcome::Broken(broken)) => Ok(Found::Refused(Fault {
            place: node.place,
            broken,
        })),
        Err(error) => Err(error),
    }
}

/// The same, where one rule that is broken stands at a part.
pub(crate) fn finish_blaming(
    outcome: Result<Outcome, NoMemory>,
    context: &mut Context,
    number: u32,
    blame: Blame,
    rest: Known,
) -> Result<Found<Known>, NoMemory>
    requires { IfOk outcome (λ answer. IsTypedBelow (length context.old.types) answer) }
    ensures { IfOk result (λ found. FinishedBy (blamed blame) rest number context.old outcome context.new found) }
{
    match outcome {
        Ok(Outcome::Typed(ctype)) => pass(context, number, Known { ctype, ..rest }),
        Ok(Outcome::Broken(broken)) => Ok(Found::Refused(Fault {
            place: blame.place(broken),
            broken,
        })),
        Err(error) => Err(error),
    }
}

/// Finishes where several things are asked: the first that is broken is refused, and else the expression passes.
pub(crate) fn settle(
    context: &mut Context,
    number: u32,
    first: Option<Fault>,
    known: Known,
) -> Result<Found<Known>, NoMemory>
    requires { known.ctype < length context.old.types }
    ensures { IfOk result (λ found. IsSettledBy first known number context.old context.new found) }
{
    match first {
        Some(fault) => Ok(Found::Refused(fault)),
        None => pass(context, number, known),
    }
}
