//! The values of expressions (C11 6.5).
ghost use Rattle.std.specs.Prelude.{◌≡◌, IfOk};
ghost use Rattle.c_machine.specs.Expressions.{value_tasks};
ghost use Rattle.expressions.specs.Numbers.{Numbering};
ghost use Rattle.c_machine.specs.Program.{Program, functions_in};
ghost use Rattle.c_machine.specs.Trees.{text_of};
ghost use Rattle.c_text.specs.Stands.{StandsFor};
ghost use Rattle.c_run.specs.tasks.Room.{MakesRoom};

use crate::tasks::assignments::{assigned, counted};
use crate::tasks::blocks::in_inner_block;
use crate::tasks::calls::called;
use crate::tasks::forms::{cast, chosen};
use crate::tasks::loads::loaded;
use crate::tasks::names::{known_value, named_value};
use crate::tasks::operations::{binary, unary};
use crate::tasks::pushes::alone;
use crate::tasks::room::Room;
use crate::tasks::state::TreeState;
use c_machine::Task;
use c_text::{Functions, TypedText};
use cbase::{Expr, ExprForm, NoMemory};

/// What is to be done for the value of an expression (C11 6.5).
///
/// It takes one step, at a member one look-up in the names of the members, at a call time for the arguments, and at a block in brackets for its statements.
pub fn value_tasks<'a>(
    text: &TypedText,
    functions: &Functions,
    state: &mut TreeState<'a>,
    expr: &'a Expr,
) -> Result<Room, NoMemory>
    ensures { IfOk result (λ room. (n : Numbering) (p : Program) → StandsFor n text.now p → functions.now ≡ functions_in p.items
        → MakesRoom (value_tasks (text_of p) expr.now) room state.old state.new) }
{
    match &expr.form {
        ExprForm::Name(_) => named_value(text, state, expr),
        ExprForm::Constant(_) => known_value(text, state, expr),
        ExprForm::Unary { op, arg } => unary(text, state, expr, *op, arg.get()),
        ExprForm::Binary { op, left, right } => {
            binary(text, state, expr, *op, left.get(), right.get())
        }
        ExprForm::Assign { op, left, right } => {
            assigned(text, state, expr, *op, left.get(), right.get())
        }
        ExprForm::Count { up, after, arg } => counted(text, state, expr, *up, *after, arg.get()),
        ExprForm::Choose { test, yes, no } => {
            chosen(text, state, expr, test.get(), yes.get(), no.get())
        }
        ExprForm::Cast { arg, .. } => cast(text, state, expr, arg.get()),
        ExprForm::SizeOf(_) => known_value(text, state, expr),
        ExprForm::SizeOfType(_) => known_value(text, state, expr),
        ExprForm::OffsetOf { .. } => known_value(text, state, expr),
        ExprForm::Index { .. } => loaded(text, state, expr),
        ExprForm::Member { .. } => loaded(text, state, expr),
        ExprForm::Call { callee, args } => called(
            text,
            functions,
            state,
            callee.get(),
            args.as_slice(),
        ),
        ExprForm::Inner { body, close } => in_inner_block(text, state, body.as_slice(), *close),
        ExprForm::AssertFail => alone(state, Task::EndRun),
    }
}
