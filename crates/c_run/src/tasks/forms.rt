//! Casts and `?:` (C11 6.5.4, 6.5.15).
ghost use Rattle.std.specs.Prelude.{IfOk};
ghost use Rattle.c_machine.specs.Expressions.{value_parts};
ghost use Rattle.c_machine.specs.Text.{Cast, Choose};
ghost use Rattle.expressions.specs.Numbers.{Numbering};
ghost use Rattle.c_machine.specs.Program.{Program};
ghost use Rattle.c_machine.specs.Trees.{text_of};
ghost use Rattle.c_text.specs.Stands.{StandsFor};
ghost use Rattle.c_run.specs.tasks.Room.{MakesRoom};

use crate::tasks::kinds::value_kind;
use crate::tasks::pushes::value_then;
use crate::tasks::room::Room;
use crate::tasks::state::TreeState;
use c_machine::Task;
use c_steps::Tree;
use c_text::TypedText;
use cbase::{Expr, NoMemory};

/// What is to be done for `?:` (C11 6.5.15p4).
pub fn chosen<'a>(
    text: &TypedText,
    state: &mut TreeState<'a>,
    expr: &'a Expr,
    test: &'a Expr,
    one: &'a Expr,
    other: &'a Expr,
) -> Result<Room, NoMemory>
    ensures { IfOk result (λ room. (n : Numbering) (p : Program) → StandsFor n text.now p → MakesRoom (value_parts (text_of p) expr.now (Choose test.now one.now other.now)) room state.old state.new) }
{
    let Some(kind) = value_kind(text, expr) else {
        return Ok(Room::NotKept);
    };
    value_then(
        state,
        test,
        Task::Pick {
            kind,
            one: Tree::of(one),
            other: Tree::of(other),
        },
    )
}

/// What is to be done for a cast (C11 6.5.4).
pub fn cast<'a>(
    text: &TypedText,
    state: &mut TreeState<'a>,
    expr: &'a Expr,
    arg: &'a Expr,
) -> Result<Room, NoMemory>
    ensures { IfOk result (λ room. (n : Numbering) (p : Program) → StandsFor n text.now p → MakesRoom (value_parts (text_of p) expr.now (Cast arg.now)) room state.old state.new) }
{
    let Some(from) = value_kind(text, arg) else {
        return Ok(Room::NotKept);
    };
    let Some(to) = text.kind(expr.number) else {
        return Ok(Room::NotKept);
    };
    value_then(state, arg, Task::Convert { from, to })
}
