//! The values of lvalues.
ghost use Rattle.std.specs.Prelude.{IfOk};
ghost use Rattle.c_machine.specs.Expressions.{loaded};
ghost use Rattle.expressions.specs.Numbers.{Numbering};
ghost use Rattle.c_machine.specs.Program.{Program};
ghost use Rattle.c_machine.specs.Trees.{text_of};
ghost use Rattle.c_text.specs.Stands.{StandsFor};
ghost use Rattle.c_run.specs.tasks.Room.{MakesRoom};

use crate::tasks::pushes::address_then;
use crate::tasks::room::Room;
use crate::tasks::state::TreeState;
use c_machine::Task;
use c_text::TypedText;
use cbase::{Expr, NoMemory};

/// The value of an lvalue: one load, at its place (C11 6.3.2.1p2).
pub fn loaded<'a>(
    text: &TypedText,
    state: &mut TreeState<'a>,
    expr: &'a Expr,
) -> Result<Room, NoMemory>
    ensures { IfOk result (λ room. (n : Numbering) (p : Program) → StandsFor n text.now p → MakesRoom (loaded (text_of p) expr.now) room state.old state.new) }
{
    let Some(kind) = text.kind(expr.number) else {
        return Ok(Room::NotKept);
    };
    address_then(
        state,
        expr,
        Task::Load {
            place: expr.place,
            kind,
        },
    )
}
