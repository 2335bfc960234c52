//! `return` (C11 6.8.6.4).
ghost use Rattle.std.specs.Prelude.{Some, IfOk};
ghost use Rattle.c_machine.specs.Statements.{return_tasks};
ghost use Rattle.expressions.specs.Numbers.{Numbering};
ghost use Rattle.c_machine.specs.Program.{Program};
ghost use Rattle.c_machine.specs.Trees.{text_of};
ghost use Rattle.c_text.specs.Stands.{StandsFor};
ghost use Rattle.c_run.specs.tasks.Room.{MakesRoom};

use crate::tasks::kinds::value_kind;
use crate::tasks::pushes::{alone, value_then};
use crate::tasks::room::Room;
use crate::tasks::state::TreeState;
use c_machine::{Kind, Task};
use c_text::TypedText;
use cbase::{Boxed, Expr, NoMemory, Place};

/// `return`, with a value or without one (C11 6.8.6.4).
pub(crate) fn returned<'a>(
    text: &TypedText,
    state: &mut TreeState<'a>,
    word: Place,
    expr: &'a Option<Boxed<Expr>>,
) -> Result<Room, NoMemory>
    ensures { IfOk result (λ room. (n : Numbering) (p : Program) → StandsFor n text.now p → MakesRoom (return_tasks (text_of p) word expr.now) room state.old state.new) }
{
    match expr {
        None => {
            state.do_first(Task::GiveBack {
                place: word,
                kind: Kind::Void,
            })?;
            alone(state, Task::Push(0))
        }
        Some(expr) => returned_value(text, state, word, expr.get()),
    }
}

/// `return` with a value.
fn returned_value<'a>(
    text: &TypedText,
    state: &mut TreeState<'a>,
    word: Place,
    expr: &'a Expr,
) -> Result<Room, NoMemory>
    ensures { IfOk result (λ room. (n : Numbering) (p : Program) → StandsFor n text.now p → MakesRoom (return_tasks (text_of p) word (Some expr.now)) room state.old state.new) }
{
    let Some(kind) = value_kind(text, expr) else {
        return Ok(Room::NotKept);
    };
    value_then(state, expr, Task::GiveBack { place: word, kind })
}
