//! Things to do that ask nothing of a program.
ghost use Rattle.std.specs.Prelude.{◌≡◌, [], ◌∷◌, true, IfOk, OnOk};
ghost use Rattle.c_machine.specs.declared.task.Task.TheVariants.{AddressOf, Convert, Execute, Store, Unknown, ValueOf};
ghost use Rattle.c_machine.specs.State.{doing};
ghost use Rattle.c_run.specs.tasks.Room.{are_kept, kinds_in, MakesRoom};

use crate::tasks::room::Room;
use crate::tasks::state::{TreeState, TreeTask};
use c_machine::{Kind, Task};
use c_steps::Tree;
use cbase::{Expr, NoMemory, Place, Stmt};

/// The value of an expression.
pub(crate) fn do_value<'a>(state: &mut TreeState<'a>, expr: &'a Expr) -> Result<(), NoMemory>
    ensures { OnOk result (state.new ≡ doing (ValueOf expr.now ∷ []) state.old) }
{
    state.do_first(Task::ValueOf(Tree::of(expr)))
}

/// A value of one kind is stored as one of another, at that place.
pub(crate) fn do_conversion<'a>(
    state: &mut TreeState<'a>,
    place: Place,
    value: &'a Expr,
    from: Kind,
    to: &Kind,
) -> Result<(), NoMemory>
    ensures { OnOk result (state.new ≡ doing (ValueOf value.now ∷ Convert from to.now ∷ Store place to.now ∷ []) state.old) }
{
    state.do_first(Task::Store { place, kind: *to })?;
    state.do_first(Task::Convert { from, to: *to })?;
    do_value(state, value)
}

/// A statement.
pub(crate) fn do_statement<'a>(state: &mut TreeState<'a>, stmt: &'a Stmt) -> Result<(), NoMemory>
    ensures { OnOk result (state.new ≡ doing (Execute stmt.now ∷ []) state.old) }
{
    state.do_first(Task::Execute(Tree::of(stmt)))
}

/// A thing to do alone.
pub(crate) fn alone<'a>(state: &mut TreeState<'a>, task: TreeTask<'a>) -> Result<Room, NoMemory>
    ensures { IfOk result (λ room. are_kept (kinds_in (task.entry ∷ [])) ≡ true → MakesRoom (task.entry ∷ []) room state.old state.new) }
{
    match state.do_first(task) {
        Ok(()) => Ok(Room::Made),
        Err(error) => Err(error),
    }
}

/// A statement alone.
pub(crate) fn statement_alone<'a>(
    state: &mut TreeState<'a>,
    stmt: &'a Stmt,
) -> Result<Room, NoMemory>
    ensures { IfOk result (λ room. MakesRoom (Execute stmt.now ∷ []) room state.old state.new) }
{
    alone(state, Task::Execute(Tree::of(stmt)))
}

/// The value of an expression alone.
pub(crate) fn value_alone<'a>(state: &mut TreeState<'a>, expr: &'a Expr) -> Result<Room, NoMemory>
    ensures { IfOk result (λ room. MakesRoom (ValueOf expr.now ∷ []) room state.old state.new) }
{
    alone(state, Task::ValueOf(Tree::of(expr)))
}

/// The address of an expression alone.
pub(crate) fn address_alone<'a>(state: &mut TreeState<'a>, expr: &'a Expr) -> Result<Room, NoMemory>
    ensures { IfOk result (λ room. MakesRoom (AddressOf expr.now ∷ []) room state.old state.new) }
{
    alone(state, Task::AddressOf(Tree::of(expr)))
}

/// The value of an expression, and then another thing.
pub(crate) fn value_then<'a>(
    state: &mut TreeState<'a>,
    expr: &'a Expr,
    task: TreeTask<'a>,
) -> Result<Room, NoMemory>
    ensures { IfOk result (λ room. are_kept (kinds_in (task.entry ∷ [])) ≡ true → MakesRoom (ValueOf expr.now ∷ task.entry ∷ []) room state.old state.new) }
{
    state.do_first(task)?;
    value_alone(state, expr)
}

/// The address of an expression, and then another thing.
pub(crate) fn address_then<'a>(
    state: &mut TreeState<'a>,
    expr: &'a Expr,
    task: TreeTask<'a>,
) -> Result<Room, NoMemory>
    ensures { IfOk result (λ room. are_kept (kinds_in (task.entry ∷ [])) ≡ true → MakesRoom (AddressOf expr.now ∷ task.entry ∷ []) room state.old state.new) }
{
    state.do_first(task)?;
    address_alone(state, expr)
}

/// Nothing that a program of C does.
pub(crate) fn unknown(state: &mut TreeState) -> Result<Room, NoMemory>
    ensures { IfOk result (λ room. MakesRoom (Unknown ∷ []) room state.old state.new) }
{
    alone(state, Task::Unknown)
}
