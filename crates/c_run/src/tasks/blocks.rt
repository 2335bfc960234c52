//! Blocks and the objects that are made where they are entered (C11 6.2.4, 6.8.2).
ghost use Rattle.std.specs.Prelude.{◌≡◌, ◌+◌, ◌<◌, [], ◌∷◌, drop, length, map, true, false, IfNone, IfOk, IfSome, OnOk};
ghost use Rattle.std.specs.List.{flat_map};
ghost use Rattle.cbase.specs.declared.tree.decl.Declared.{Declared};
ghost use Rattle.c_machine.specs.declared.task.Task.TheVariants.{Execute, OpenBlock};
ghost use Rattle.c_machine.specs.Blocks.{are_empty, entered, in_block, in_inner_block, is_empty, last_tasks, made, objects_in, valued};
ghost use Rattle.c_machine.specs.State.{doing};
ghost use Rattle.expressions.specs.Numbers.{Numbering};
ghost use Rattle.c_machine.specs.Program.{Program};
ghost use Rattle.c_machine.specs.Trees.{name_of, text_of};
ghost use Rattle.c_text.specs.Stands.{StandsFor};
ghost use Rattle.c_run.specs.tasks.Room.{MakesRoom};

use crate::tasks::pushes::{alone, do_statement, do_value};
use crate::tasks::room::Room;
use crate::tasks::state::TreeState;
use c_machine::Task;
use c_text::TypedText;
use cbase::{Declared, NoMemory, Place, Stmt, StmtForm};

/// What is to be done for a block, which ends at the `}` of that place (C11 6.8.2).
pub fn in_block<'a>(
    text: &TypedText,
    state: &mut TreeState<'a>,
    body: &'a [Stmt],
    close: Place,
) -> Result<Room, NoMemory>
    ensures { IfOk result (λ room. (n : Numbering) (p : Program) → StandsFor n text.now p → MakesRoom (in_block (text_of p) body.now close) room state.old state.new) }
{
    state.do_first(Task::LeaveBlock(close))?;
    do_statements(state, body)?;
    open_block(text, state, body)
}

/// What is to be done for the block of a statement expression, whose last expression is its value.
pub fn in_inner_block<'a>(
    text: &TypedText,
    state: &mut TreeState<'a>,
    body: &'a [Stmt],
    close: Place,
) -> Result<Room, NoMemory>
    ensures { IfOk result (λ room. (n : Numbering) (p : Program) → StandsFor n text.now p → MakesRoom (in_inner_block (text_of p) body.now close) room state.old state.new) }
{
    state.do_first(Task::LeaveBlock(close))?;
    do_valued(state, body)?;
    open_block(text, state, body)
}

/// A block begins, and its objects are made (C11 6.2.4p6).
fn open_block<'a>(
    text: &TypedText,
    state: &mut TreeState<'a>,
    body: &'a [Stmt],
) -> Result<Room, NoMemory>
    ensures { IfOk result (λ room. (n : Numbering) (p : Program) → StandsFor n text.now p → MakesRoom (OpenBlock ∷ entered (text_of p) body.now) room state.old state.new) }
{
    match entered(text, state, body)? {
        Room::NotKept => Ok(Room::NotKept),
        Room::Made => alone(state, Task::OpenBlock),
    }
}

/// The automatic objects that the statements of a block declare are made, in order (C11 6.2.4p6).
pub fn entered<'a>(
    text: &TypedText,
    state: &mut TreeState<'a>,
    body: &'a [Stmt],
) -> Result<Room, NoMemory>
    ensures { IfOk result (λ room. (n : Numbering) (p : Program) → StandsFor n text.now p → MakesRoom (entered (text_of p) body.now) room state.old state.new) }
{
    let mut left = body.len();
    while left > 0 {
        left -= 1;
        match objects_in(text, state, &body[left])? {
            Room::Made => {}
            Room::NotKept => return Ok(Room::NotKept),
        }
    }
    Ok(Room::Made)
}

/// The automatic objects that a statement declares are made, in order.
pub fn objects_in<'a>(
    text: &TypedText,
    state: &mut TreeState<'a>,
    stmt: &'a Stmt,
) -> Result<Room, NoMemory>
    ensures { IfOk result (λ room. (n : Numbering) (p : Program) → StandsFor n text.now p → MakesRoom (objects_in (text_of p) stmt.now) room state.old state.new) }
{
    match &stmt.form {
        StmtForm::Declare(decl) => objects_of(text, state, decl.get().names.as_slice()),
        _ => Ok(Room::Made),
    }
}

/// The automatic objects that the names of a declaration declare are made, in order.
fn objects_of<'a>(
    text: &TypedText,
    state: &mut TreeState<'a>,
    names: &'a [Declared],
) -> Result<Room, NoMemory>
    ensures { IfOk result (λ room. (n : Numbering) (p : Program) → StandsFor n text.now p
        → MakesRoom (flat_map (λ (name : Declared). made (text_of p) ((text_of p).automatic (name_of name).place)) names.now) room state.old state.new) }
{
    let mut left = names.len();
    while left > 0 {
        left -= 1;
        match object_of(text, state, &names[left])? {
            Room::Made => {}
            Room::NotKept => return Ok(Room::NotKept),
        }
    }
    Ok(Room::Made)
}

/// The automatic object that a name declares is made, if it declares one.
fn object_of(text: &TypedText, state: &mut TreeState, name: &Declared) -> Result<Room, NoMemory>
    ensures { IfOk result (λ room. (n : Numbering) (p : Program) → StandsFor n text.now p
        → MakesRoom (made (text_of p) ((text_of p).automatic (name_of name.now).place)) room state.old state.new) }
{
    match text.automatic(name.place.at) {
        None => Ok(Room::NotKept),
        Some(None) => Ok(Room::Made),
        Some(Some(object)) => alone(state, Task::MakeObject(object)),
    }
}

/// The statements of a block, in order.
fn do_statements<'a>(state: &mut TreeState<'a>, body: &'a [Stmt]) -> Result<(), NoMemory>
    ensures { OnOk result (state.new ≡ doing (map Execute body.now) state.old) }
{
    let mut left = body.len();
    while left > 0 {
        left -= 1;
        do_statement(state, &body[left])?;
    }
    Ok(())
}

/// The statements of the block of a statement expression, in order, with the value of the last one that is not empty.
fn do_valued<'a>(state: &mut TreeState<'a>, body: &'a [Stmt]) -> Result<(), NoMemory>
    ensures { OnOk result ((p : Program) → state.new ≡ doing (valued (text_of p) body.now) state.old) }
{
    let Some(front) = last_counted(body) else {
        return state.do_first(Task::Push(0));
    };
    do_last(state, &body[front])?;
    do_statements(state, &body[..front])
}

/// Where the last statement stands that is not empty, or the first one where all are. None where there is no statement.
fn last_counted(body: &[Stmt]) -> Option<usize>
    ensures none { IfNone result (body.now ≡ []) }
    ensures inside { IfSome result (λ at. at < length body.now) }
    ensures empty { IfSome result (λ at. (p : Program) → are_empty (text_of p) (drop (at + 1) body.now) ≡ true) }
    ensures full { IfSome result (λ at. (p : Program) → 0 < at → are_empty (text_of p) (drop at body.now) ≡ false) }
{
    let mut at = body.len();
    while at > 0 {
        at -= 1;
        if !is_empty(&body[at]) {
            return Some(at);
        }
    }
    if body.is_empty() { None } else { Some(0) }
}

/// Whether a statement is `;` alone.
fn is_empty(stmt: &Stmt) -> bool
    ensures { (p : Program) → result ≡ is_empty ((text_of p).clause stmt.now) }
{
    match &stmt.form {
        StmtForm::Eval(expr) => expr.is_none(),
        _ => false,
    }
}

/// The last statement of the block of a statement expression: the value of an expression is kept, and any other statement has none.
fn do_last<'a>(state: &mut TreeState<'a>, stmt: &'a Stmt) -> Result<(), NoMemory>
    ensures { OnOk result ((p : Program) → state.new ≡ doing (last_tasks (text_of p) stmt.now ((text_of p).clause stmt.now)) state.old) }
{
    match &stmt.form {
        StmtForm::Eval(Some(expr)) => {
            state.do_first(Task::Keep(stmt.after))?;
            do_value(state, expr)
        }
        _ => {
            state.do_first(Task::Push(0))?;
            do_statement(state, stmt)
        }
    }
}
