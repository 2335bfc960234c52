//! Declarations in blocks (C11 6.7).
ghost use Rattle.std.specs.Prelude.{map, IfOk};
ghost use Rattle.std.specs.List.{flat_map};
ghost use Rattle.c_machine.specs.Blocks.{declared_tasks};
ghost use Rattle.expressions.specs.Numbers.{Numbering};
ghost use Rattle.c_machine.specs.Program.{Program};
ghost use Rattle.c_machine.specs.Trees.{name_of, text_of};
ghost use Rattle.c_text.specs.Stands.{StandsFor};
ghost use Rattle.c_run.specs.tasks.Room.{MakesRoom};

use crate::tasks::initialisers::declared_tasks;
use crate::tasks::room::Room;
use crate::tasks::state::TreeState;
use c_text::TypedText;
use cbase::{Declared, NoMemory};

/// What is to be done for the names of a declaration, in order (C11 6.7). What is done last is put there first.
pub(crate) fn declared_names<'a>(
    text: &TypedText,
    state: &mut TreeState<'a>,
    names: &'a [Declared],
) -> Result<Room, NoMemory>
    ensures { IfOk result (λ room. (n : Numbering) (p : Program) → StandsFor n text.now p → MakesRoom (flat_map (declared_tasks (text_of p)) (map name_of names.now)) room state.old state.new) }
{
    let mut left = names.len();
    while left > 0 {
        left -= 1;
        match declared_tasks(text, state, &names[left])? {
            Room::Made => {}
            Room::NotKept => return Ok(Room::NotKept),
        }
    }
    Ok(Room::Made)
}
