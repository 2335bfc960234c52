//! Unary and binary operators (C11 6.5.3, 6.5.5 to 6.5.14, 6.5.17).
ghost use Rattle.std.specs.Prelude.{[], ◌∷◌, IfOk};
ghost use Rattle.c_machine.specs.declared.task.Task.TheVariants.{Apply, Drop, Operate, ValueOf};
ghost use Rattle.c_machine.specs.Expressions.{value_kind, value_parts};
ghost use Rattle.c_machine.specs.Text.{Unary, Binary};
ghost use Rattle.expressions.specs.Numbers.{Numbering};
ghost use Rattle.c_machine.specs.Program.{Program};
ghost use Rattle.c_machine.specs.Trees.{text_of};
ghost use Rattle.c_text.specs.Stands.{StandsFor};
ghost use Rattle.c_run.specs.tasks.Room.{MakesRoom};

use crate::tasks::kinds::value_kind;
use crate::tasks::loads::loaded;
use crate::tasks::pushes::{address_alone, do_value, value_then};
use crate::tasks::room::Room;
use crate::tasks::state::TreeState;
use c_machine::Task;
use c_steps::Tree;
use c_text::TypedText;
use cbase::{BinaryOp, Expr, NoMemory, UnaryOp};

/// What is to be done for the value of a unary operator with its operand (C11 6.5.3.2, 6.5.3.3).
pub fn unary<'a>(
    text: &TypedText,
    state: &mut TreeState<'a>,
    expr: &'a Expr,
    op: UnaryOp,
    arg: &'a Expr,
) -> Result<Room, NoMemory>
    ensures { IfOk result (λ room. (n : Numbering) (p : Program) → StandsFor n text.now p → MakesRoom (value_parts (text_of p) expr.now (Unary op arg.now)) room state.old state.new) }
{
    match op {
        UnaryOp::Address => address_alone(state, arg),
        UnaryOp::Follow => loaded(text, state, expr),
        UnaryOp::Not => value_then(state, arg, Task::Answer(false)),
        _ => applied(text, state, op, arg),
    }
}

/// An operator of arithmetic on one value.
fn applied<'a>(
    text: &TypedText,
    state: &mut TreeState<'a>,
    op: UnaryOp,
    arg: &'a Expr,
) -> Result<Room, NoMemory>
    ensures { IfOk result (λ room. (n : Numbering) (p : Program) → StandsFor n text.now p → MakesRoom (ValueOf arg.now ∷ Apply op (value_kind (text_of p) arg.now) ∷ []) room state.old state.new) }
{
    let Some(kind) = value_kind(text, arg) else {
        return Ok(Room::NotKept);
    };
    value_then(state, arg, Task::Apply { op, kind })
}

/// What is to be done for the value of a binary operator or the comma with its operands: `&&` and `||` ask the left one first (C11 6.5.13p4, 6.5.14p4).
pub fn binary<'a>(
    text: &TypedText,
    state: &mut TreeState<'a>,
    expr: &'a Expr,
    op: BinaryOp,
    left: &'a Expr,
    right: &'a Expr,
) -> Result<Room, NoMemory>
    ensures { IfOk result (λ room. (n : Numbering) (p : Program) → StandsFor n text.now p → MakesRoom (value_parts (text_of p) expr.now (Binary op left.now right.now)) room state.old state.new) }
{
    match op {
        BinaryOp::Both => value_then(state, left, Task::AndThen(Tree::of(right))),
        BinaryOp::Either => value_then(state, left, Task::OrElse(Tree::of(right))),
        BinaryOp::Comma => behind_comma(state, left, right),
        _ => operated(text, state, op, left, right),
    }
}

/// `,`: the left value goes (C11 6.5.17p2).
fn behind_comma<'a>(
    state: &mut TreeState<'a>,
    left: &'a Expr,
    right: &'a Expr,
) -> Result<Room, NoMemory>
    ensures { IfOk result (λ room. MakesRoom (ValueOf left.now ∷ Drop ∷ ValueOf right.now ∷ []) room state.old state.new) }
{
    do_value(state, right)?;
    value_then(state, left, Task::Drop)
}

/// An operator on two values.
pub(crate) fn operated<'a>(
    text: &TypedText,
    state: &mut TreeState<'a>,
    op: BinaryOp,
    left: &'a Expr,
    right: &'a Expr,
) -> Result<Room, NoMemory>
    ensures { IfOk result (λ room. (n : Numbering) (p : Program) → StandsFor n text.now p → MakesRoom (ValueOf left.now ∷ ValueOf right.now ∷ Operate op (value_kind (text_of p) left.now) (value_kind (text_of p) right.now) ∷ []) room state.old state.new) }
{
    let Some(one) = value_kind(text, left) else {
        return Ok(Room::NotKept);
    };
    let Some(other) = value_kind(text, right) else {
        return Ok(Room::NotKept);
    };
    state.do_first(Task::Operate {
        op,
        left: one,
        right: other,
    })?;
    value_then(state, left, Task::ValueOf(Tree::of(right)))
}
