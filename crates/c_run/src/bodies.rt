//! The bodies of functions (C11 6.9.1).
ghost use Rattle.std.specs.Prelude.{◌≡◌, map, true, IfOk};
ghost use Rattle.std.specs.List.{list_all};
ghost use Rattle.expressions.specs.Numbers.{Numbering};
ghost use Rattle.c_machine.specs.Calls.{body_tasks, function_tasks};
ghost use Rattle.c_machine.specs.Program.{Program};
ghost use Rattle.c_machine.specs.Trees.{function_as, text_of};
ghost use Rattle.c_run.specs.tasks.Room.{MakesRoom};
ghost use Rattle.c_text.specs.Kept.{is_sized};
ghost use Rattle.c_text.specs.Stands.{StandsFor};

use crate::doing::{execute_each, make_parameters};
use crate::tasks::{Room, TreeState, entered};
use c_machine::{Object, Task};
use c_text::{FunctionItem, TypedText};
use cbase::NoMemory;

/// The body of a function is to be executed up to its `}`: its automatic objects are made, all of them, before anything in it runs (C11 6.2.4p6). Unfinished
/// expressions around the call hold so many operands.
pub(crate) fn body_tasks<'a>(
    text: &TypedText,
    state: &mut TreeState<'a>,
    function: &FunctionItem<'a>,
    held: usize,
) -> Result<Room, NoMemory>
    ensures { IfOk result (λ room. (n : Numbering) (p : Program) → StandsFor n text.now p
        → MakesRoom (body_tasks (text_of p) (function_as p function.now) held) room state.old state.new) }
{
    let Some(result) = text.defined_result(function.token()) else {
        return Ok(Room::NotKept);
    };
    state.do_first(Task::EndOfBody {
        main: function.is_main(),
        result,
        close: function.close(),
        held,
    })?;
    let body = function.body();
    execute_each(state, body)?;
    entered(text, state, body)
}

/// A function that is called is to be executed: each of its parameters is made and gets its argument, and then the body follows (C11 6.9.1p9 to p11). These are the
/// objects of its parameters.
pub(crate) fn function_tasks<'a>(
    text: &TypedText,
    state: &mut TreeState<'a>,
    params: &[Object],
    function: &FunctionItem<'a>,
    held: usize,
) -> Result<Room, NoMemory>
    ensures { IfOk result (λ room. (n : Numbering) (p : Program) → StandsFor n text.now p → list_all is_sized params.now ≡ true
        → params.now ≡ map (λ param. param.object) (function_as p function.now).params
        → MakesRoom (function_tasks (text_of p) (function_as p function.now) held) room state.old state.new) }
{
    match body_tasks(text, state, function, held)? {
        Room::NotKept => Ok(Room::NotKept),
        Room::Made => {
            make_parameters(state, params)?;
            state.do_first(Task::OpenBlock)?;
            Ok(Room::Made)
        }
    }
}
