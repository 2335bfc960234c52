//! Steps that only make room for what a tree is (C11 6.5, 6.7.9, 6.8).
ghost use Rattle.std.specs.Prelude.{◌≡◌, List as Items, IfOk};
ghost use Rattle.choices.specs.declared.choice.Choice.{Choice};
ghost use Rattle.c_machine.specs.declared.task.Task.TheVariants.{AddressOf, Execute, Initialise, ValueOf};
ghost use Rattle.c_machine.specs.Program.{Program, functions_in};
ghost use Rattle.c_machine.specs.Trees.{text_of};
ghost use Rattle.expressions.specs.Numbers.{Numbering};
ghost use Rattle.c_text.specs.Stands.{StandsFor};
ghost use Rattle.c_run.specs.Stepped.{IsStepOf};

use crate::stepped::{Stepped, stepped_by};
use crate::tasks::{TreeState, address_tasks, initialiser_tasks, statement_tasks, value_tasks};
use c_text::{Functions, TypedText};
use cbase::{Expr, Init, NoMemory, Place, Stmt};

/// The value of an expression.
pub(crate) fn value_step<'a>(
    text: &TypedText,
    functions: &Functions,
    state: &mut TreeState<'a>,
    expr: &'a Expr,
) -> Result<Stepped, NoMemory>
    ensures { IfOk result (λ stepped. (n : Numbering) (p : Program) (choices : Items Choice) → StandsFor n text.now p → functions.now ≡ functions_in p.items
        → IsStepOf (text_of p) (ValueOf expr.now) stepped state.old choices state.new choices) }
{
    stepped_by(value_tasks(text, functions, state, expr))
}

/// The address of an lvalue.
pub(crate) fn address_step<'a>(
    text: &TypedText,
    state: &mut TreeState<'a>,
    expr: &'a Expr,
) -> Result<Stepped, NoMemory>
    ensures { IfOk result (λ stepped. (n : Numbering) (p : Program) (choices : Items Choice) → StandsFor n text.now p
        → IsStepOf (text_of p) (AddressOf expr.now) stepped state.old choices state.new choices) }
{
    stepped_by(address_tasks(text, state, expr))
}

/// A statement.
pub(crate) fn statement_step<'a>(
    text: &TypedText,
    state: &mut TreeState<'a>,
    stmt: &'a Stmt,
) -> Result<Stepped, NoMemory>
    ensures { IfOk result (λ stepped. (n : Numbering) (p : Program) (choices : Items Choice) → StandsFor n text.now p
        → IsStepOf (text_of p) (Execute stmt.now) stepped state.old choices state.new choices) }
{
    let held = state.held();
    stepped_by(statement_tasks(text, state, stmt, held))
}

/// An initialiser of the object whose name stands at that place.
pub(crate) fn initialiser_step<'a>(
    text: &TypedText,
    state: &mut TreeState<'a>,
    place: Place,
    init: &'a Init,
) -> Result<Stepped, NoMemory>
    ensures { IfOk result (λ stepped. (n : Numbering) (p : Program) (choices : Items Choice) → StandsFor n text.now p
        → IsStepOf (text_of p) (Initialise place init.now) stepped state.old choices state.new choices) }
{
    stepped_by(initialiser_tasks(text, state, place, init))
}
