//! What a program does first: it makes and initialises the objects that live as long as it runs, and then calls main (C11 5.1.2p1, 5.1.2.2.1).
ghost use Rattle.std.specs.Prelude.{◌≡◌, map, true, IfOk};
ghost use Rattle.std.specs.List.{list_all};
ghost use Rattle.expressions.specs.Numbers.{Numbering};
ghost use Rattle.c_machine.specs.Program.{Program};
ghost use Rattle.c_machine.specs.Run.{main_tasks};
ghost use Rattle.c_machine.specs.Trees.{function_as, text_of};
ghost use Rattle.c_text.specs.Stands.{StandsFor};
ghost use Rattle.c_run.specs.Started.{MakesStatics};
ghost use Rattle.c_run.specs.tasks.Room.{MakesRoom};
ghost use Rattle.c_text.specs.Kept.{is_sized};

use crate::bodies::body_tasks;
use crate::doing::{initialise_each, make_objects, make_statics};
use crate::tasks::{Room, TreeState};
use c_machine::{Object, Task};
use c_text::statics::StaticSet;
use c_text::{FunctionItem, TypedText};
use cbase::NoMemory;
use std::alloc::Global;

/// The objects that live as long as the program runs are to be made, and then to be initialised by these initialisers (C11 5.1.2p1, 6.2.4p3).
///
/// It says how many objects these are, or `None` where one of them has more than 65,536 bytes.
pub fn static_tasks<'a>(
    alloc: Global,
    text: &TypedText,
    state: &mut TreeState<'a>,
    sets: &[StaticSet<'a>],
) -> Result<Option<usize>, NoMemory>
    ensures { IfOk result (λ count. (n : Numbering) (p : Program) → StandsFor n text.now p → sets.now ≡ (text_of p).sets → MakesStatics (text_of p) count state.old state.new) }
{
    match text.static_objects(alloc)? {
        None => Ok(None),
        Some(objects) => {
            initialise_each(state, sets)?;
            let made = objects.as_slice();
            make_statics(state, made)?;
            Ok(Some(made.len()))
        }
    }
}

/// Main is to be called (C11 5.1.2.2.1): its parameters, which have any values, and the outermost block of its body are one block (6.2.1p4, 6.9.1p9).
pub fn main_tasks<'a>(
    alloc: Global,
    text: &TypedText,
    state: &mut TreeState<'a>,
    main: &FunctionItem<'a>,
) -> Result<Room, NoMemory>
    ensures { IfOk result (λ room. (n : Numbering) (p : Program) → StandsFor n text.now p → MakesRoom (main_tasks (text_of p) (function_as p main.now)) room state.old state.new) }
{
    match text.parameter_objects(alloc, main.token())? {
        None => Ok(Room::NotKept),
        Some(params) => with_objects(text, state, params.as_slice(), main),
    }
}

/// The block of main is to be entered, with these objects of its parameters.
fn with_objects<'a>(
    text: &TypedText,
    state: &mut TreeState<'a>,
    params: &[Object],
    main: &FunctionItem<'a>,
) -> Result<Room, NoMemory>
    ensures { IfOk result (λ room. (n : Numbering) (p : Program) → StandsFor n text.now p → list_all is_sized params.now ≡ true
        → params.now ≡ map (λ param. param.object) (function_as p main.now).params
        → MakesRoom (main_tasks (text_of p) (function_as p main.now)) room state.old state.new) }
{
    match body_tasks(text, state, main, 0)? {
        Room::NotKept => Ok(Room::NotKept),
        Room::Made => {
            make_objects(state, params)?;
            state.do_first(Task::OpenBlock)?;
            Ok(Room::Made)
        }
    }
}
