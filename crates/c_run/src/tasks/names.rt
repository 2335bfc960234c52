//! Names and constants (C11 6.4.4, 6.5.1).
ghost use Rattle.std.specs.Prelude.{IfOk};
ghost use Rattle.c_machine.specs.Expressions.{value_parts};
ghost use Rattle.c_machine.specs.Program.{constant_of};
ghost use Rattle.c_machine.specs.Text.{Name, Known};
ghost use Rattle.expressions.specs.Numbers.{Numbering};
ghost use Rattle.c_machine.specs.Program.{Program};
ghost use Rattle.c_machine.specs.Trees.{text_of};
ghost use Rattle.c_text.specs.Stands.{StandsFor};
ghost use Rattle.c_run.specs.tasks.Room.{MakesRoom};

use crate::tasks::loads::loaded;
use crate::tasks::pushes::{alone, unknown};
use crate::tasks::room::Room;
use crate::tasks::state::TreeState;
use c_machine::Task;
use c_text::{Standing, TypedText};
use cbase::{Expr, NoMemory};

/// What is to be done for the value of a name: a constant of an enum is known, and an object is loaded (C11 6.4.4.3, 6.5.1).
pub fn named_value<'a>(
    text: &TypedText,
    state: &mut TreeState<'a>,
    expr: &'a Expr,
) -> Result<Room, NoMemory>
    ensures { IfOk result (λ room. (n : Numbering) (p : Program) → StandsFor n text.now p → MakesRoom (value_parts (text_of p) expr.now Name) room state.old state.new) }
{
    match text.standing(expr.number) {
        Standing::Constant(bits) => alone(state, Task::Push(u64::from(bits))),
        _ => loaded(text, state, expr),
    }
}

/// What is to be done for a constant, `sizeof` or `__builtin_offsetof`, whose value is known (C11 6.4.4, 6.5.3.4, 7.19).
pub fn known_value<'a>(
    text: &TypedText,
    state: &mut TreeState<'a>,
    expr: &'a Expr,
) -> Result<Room, NoMemory>
    ensures { IfOk result (λ room. (n : Numbering) (p : Program) → StandsFor n text.now p → MakesRoom (value_parts (text_of p) expr.now (Known (constant_of p expr.now))) room state.old state.new) }
{
    match text.constant(expr.number) {
        None => unknown(state),
        Some(bits) => alone(state, Task::Push(bits)),
    }
}
