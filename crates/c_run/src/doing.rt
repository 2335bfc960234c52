//! Several things to do of one kind, put in front of all else that is to be done, in order.
ghost use Rattle.std.specs.Prelude.{◌≡◌, map, OnOk};
ghost use Rattle.c_machine.specs.declared.task.Task.TheVariants.{Execute, Initialise, MakeObject, MakeParameter, MakeStatic};
ghost use Rattle.c_machine.specs.State.{doing};

use crate::tasks::TreeState;
use c_machine::{Object, Task};
use c_steps::Tree;
use c_text::statics::StaticSet;
use cbase::{NoMemory, Stmt};

/// Objects of a block are made (C11 6.2.4p6).
pub fn make_objects(state: &mut TreeState, objects: &[Object]) -> Result<(), NoMemory>
    ensures { OnOk result (state.new ≡ doing (map MakeObject objects.now) state.old) }
{
    let mut left = objects.len();
    while left > 0 {
        left -= 1;
        state.do_first(Task::MakeObject(objects[left]))?;
    }
    Ok(())
}

/// Parameters are made, and get their arguments (C11 6.9.1p9, p10).
pub fn make_parameters(state: &mut TreeState, objects: &[Object]) -> Result<(), NoMemory>
    ensures { OnOk result (state.new ≡ doing (map MakeParameter objects.now) state.old) }
{
    let mut left = objects.len();
    while left > 0 {
        left -= 1;
        state.do_first(Task::MakeParameter(objects[left]))?;
    }
    Ok(())
}

/// Objects are made that live as long as the program runs (C11 6.2.4p3).
pub fn make_statics(state: &mut TreeState, objects: &[Object]) -> Result<(), NoMemory>
    ensures { OnOk result (state.new ≡ doing (map MakeStatic objects.now) state.old) }
{
    let mut left = objects.len();
    while left > 0 {
        left -= 1;
        state.do_first(Task::MakeStatic(objects[left]))?;
    }
    Ok(())
}

/// Objects are initialised (C11 6.7.9).
pub fn initialise_each<'a>(
    state: &mut TreeState<'a>,
    sets: &[StaticSet<'a>],
) -> Result<(), NoMemory>
    ensures { OnOk result (state.new ≡ doing (map (λ set. Initialise set.place set.init) sets.now) state.old) }
{
    let mut left = sets.len();
    while left > 0 {
        left -= 1;
        let set = &sets[left];
        state.do_first(Task::Initialise {
            place: set.place(),
            init: Tree::of(set.init()),
        })?;
    }
    Ok(())
}

/// Statements are executed (C11 6.8p3).
pub fn execute_each<'a>(state: &mut TreeState<'a>, body: &'a [Stmt]) -> Result<(), NoMemory>
    ensures { OnOk result (state.new ≡ doing (map Execute body.now) state.old) }
{
    let mut left = body.len();
    while left > 0 {
        left -= 1;
        state.do_first(Task::Execute(Tree::of(&body[left])))?;
    }
    Ok(())
}
