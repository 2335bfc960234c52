//! The arguments of a call (C11 6.5.2.2).
ghost use Rattle.std.specs.Prelude.{◌≡◌, ◌<◌, ◌≤◌, [], ◌∷◌, length, map, slice_get, Some, IfOk};
ghost use Rattle.cbase.specs.declared.ctype.CType.{CType};
ghost use Rattle.c_machine.specs.declared.task.Task.TheVariants.{Convert, ValueOf};
ghost use Rattle.c_machine.specs.Expressions.{argument_tasks, value_kind};
ghost use Rattle.expressions.specs.Numbers.{Numbering};
ghost use Rattle.c_machine.specs.Program.{Program};
ghost use Rattle.c_machine.specs.Trees.{kind_in, text_of};
ghost use Rattle.c_text.specs.Parameters.{AreParameters, types_by};
ghost use Rattle.c_text.specs.Stands.{StandsFor};
ghost use Rattle.c_run.specs.tasks.Room.{MakesRoom};

use crate::tasks::kinds::value_kind;
use crate::tasks::pushes::value_then;
use crate::tasks::room::Room;
use crate::tasks::state::TreeState;
use c_machine::Task;
use c_text::{Parameters, TypedText};
use cbase::{Expr, NoMemory};

/// What is to be done for the arguments of a call, from left to right, each converted to its parameter (C11 6.5.2.2p4, p7).
///
/// Behind the last parameter no program of C has an argument.
pub(crate) fn arguments<'a>(
    text: &TypedText,
    state: &mut TreeState<'a>,
    params: Parameters,
    args: &'a [Expr],
) -> Result<Room, NoMemory>
    requires { AreParameters text.now params }
    ensures { IfOk result (λ room. (n : Numbering) (p : Program) → StandsFor n text.now p → MakesRoom (argument_tasks (text_of p) args.now (map (kind_in p) (types_by n p params))) room state.old state.new) }
{
    let count = text.parameter_count(params);
    if args.len() <= count {
        return converted(text, state, params, args);
    }
    state.do_first(Task::Unknown)?;
    converted(text, state, params, &args[..count])
}

/// Arguments that each have a parameter. What is done last is put there first.
fn converted<'a>(
    text: &TypedText,
    state: &mut TreeState<'a>,
    params: Parameters,
    args: &'a [Expr],
) -> Result<Room, NoMemory>
    requires { AreParameters text.now params }
    ensures { IfOk result (λ room. (n : Numbering) (p : Program) → StandsFor n text.now p → length args.now ≤ length (types_by n p params)
        → MakesRoom (argument_tasks (text_of p) args.now (map (kind_in p) (types_by n p params))) room state.old state.new) }
{
    let mut left = args.len();
    while left > 0 {
        left -= 1;
        match argument(text, state, params, left, &args[left])? {
            Room::Made => {}
            Room::NotKept => return Ok(Room::NotKept),
        }
    }
    Ok(Room::Made)
}

/// An argument of the parameter at an index.
fn argument<'a>(
    text: &TypedText,
    state: &mut TreeState<'a>,
    params: Parameters,
    index: usize,
    arg: &'a Expr,
) -> Result<Room, NoMemory>
    requires { AreParameters text.now params }
    ensures { IfOk result (λ room. (n : Numbering) (p : Program) (param : CType) → StandsFor n text.now p → slice_get (types_by n p params) index ≡ Some param
        → MakesRoom (ValueOf arg.now ∷ Convert (value_kind (text_of p) arg.now) (kind_in p param) ∷ []) room state.old state.new) }
{
    let Some(from) = value_kind(text, arg) else {
        return Ok(Room::NotKept);
    };
    let Some(to) = text.parameter_kind(params, index) else {
        return Ok(Room::NotKept);
    };
    value_then(state, arg, Task::Convert { from, to })
}
