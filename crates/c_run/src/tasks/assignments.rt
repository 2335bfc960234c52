//! Assignments, `++` and `--` (C11 6.5.2.4, 6.5.3.1, 6.5.16).
ghost use Rattle.std.specs.Prelude.{◌≡◌, [], ◌∷◌, true, None, IfOk};
ghost use Rattle.c_machine.specs.declared.kind.Kind.TheVariants.{Struct};
ghost use Rattle.c_machine.specs.declared.task.Task.TheVariants.{AddressOf, Convert, CopyStruct, Store, Update, ValueOf};
ghost use Rattle.c_machine.specs.Expressions.{value_kind, value_parts};
ghost use Rattle.c_machine.specs.Text.{Assign, Count};
ghost use Rattle.expressions.specs.Numbers.{Numbering};
ghost use Rattle.c_machine.specs.Program.{Program};
ghost use Rattle.c_machine.specs.Trees.{text_of};
ghost use Rattle.c_text.specs.Stands.{StandsFor};
ghost use Rattle.c_run.specs.tasks.Room.{are_kept, MakesRoom};

use crate::tasks::kinds::{struct_bytes, value_kind};
use crate::tasks::pushes::{address_alone, address_then, do_conversion};
use crate::tasks::room::Room;
use crate::tasks::state::TreeState;
use c_machine::Task;
use c_steps::Tree;
use c_text::TypedText;
use cbase::{BinaryOp, Expr, NoMemory, Place};

/// What is to be done for an assignment, where `op` is the operation of `+=` and its like (C11 6.5.16).
pub fn assigned<'a>(
    text: &TypedText,
    state: &mut TreeState<'a>,
    expr: &'a Expr,
    op: Option<BinaryOp>,
    left: &'a Expr,
    right: &'a Expr,
) -> Result<Room, NoMemory>
    ensures { IfOk result (λ room. (n : Numbering) (p : Program) → StandsFor n text.now p → MakesRoom (value_parts (text_of p) expr.now (Assign op left.now right.now)) room state.old state.new) }
{
    match op {
        None => set(text, state, expr, left, right),
        Some(op) => updated(text, state, op, left, right),
    }
}

/// `=`: a struct is copied as a whole, and any other value is stored (C11 6.5.16.1).
fn set<'a>(
    text: &TypedText,
    state: &mut TreeState<'a>,
    expr: &'a Expr,
    left: &'a Expr,
    right: &'a Expr,
) -> Result<Room, NoMemory>
    ensures { IfOk result (λ room. (n : Numbering) (p : Program) → StandsFor n text.now p → MakesRoom (value_parts (text_of p) expr.now (Assign None left.now right.now)) room state.old state.new) }
{
    let Some(kind) = text.kind(left.number) else {
        return Ok(Room::NotKept);
    };
    match struct_bytes(&kind) {
        None => stored(text, state, left, right),
        Some(bytes) => copied(state, expr.place, left, right, bytes),
    }
}

/// A struct of so many bytes is copied, at that place.
fn copied<'a>(
    state: &mut TreeState<'a>,
    place: Place,
    left: &'a Expr,
    right: &'a Expr,
    bytes: u64,
) -> Result<Room, NoMemory>
    ensures { IfOk result (λ room. are_kept (Struct bytes ∷ []) ≡ true → MakesRoom (AddressOf left.now ∷ AddressOf right.now ∷ CopyStruct place bytes ∷ []) room state.old state.new) }
{
    state.do_first(Task::CopyStruct { place, bytes })?;
    address_then(state, left, Task::AddressOf(Tree::of(right)))
}

/// A value is converted and stored, at the place of the left side.
fn stored<'a>(
    text: &TypedText,
    state: &mut TreeState<'a>,
    left: &'a Expr,
    right: &'a Expr,
) -> Result<Room, NoMemory>
    ensures { IfOk result (λ room. (n : Numbering) (p : Program) → StandsFor n text.now p → MakesRoom (AddressOf left.now ∷ ValueOf right.now ∷ Convert (value_kind (text_of p) right.now) ((text_of p).kind left.now) ∷ Store left.now.place ((text_of p).kind left.now) ∷ []) room state.old state.new) }
{
    let Some(from) = value_kind(text, right) else {
        return Ok(Room::NotKept);
    };
    let Some(to) = text.kind(left.number) else {
        return Ok(Room::NotKept);
    };
    do_conversion(state, left.place, right, from, &to)?;
    address_alone(state, left)
}

/// `+=` and its like (C11 6.5.16.2).
fn updated<'a>(
    text: &TypedText,
    state: &mut TreeState<'a>,
    op: BinaryOp,
    left: &'a Expr,
    right: &'a Expr,
) -> Result<Room, NoMemory>
    ensures { IfOk result (λ room. (n : Numbering) (p : Program) → StandsFor n text.now p → MakesRoom (AddressOf left.now ∷ ValueOf right.now ∷ Update op left.now.place ((text_of p).kind left.now) (value_kind (text_of p) right.now) ∷ []) room state.old state.new) }
{
    let Some(kind) = text.kind(left.number) else {
        return Ok(Room::NotKept);
    };
    let Some(other) = value_kind(text, right) else {
        return Ok(Room::NotKept);
    };
    state.do_first(Task::Update {
        op,
        place: left.place,
        kind,
        right: other,
    })?;
    address_then(state, left, Task::ValueOf(Tree::of(right)))
}

/// What is to be done for `++` and `--`, before their operand or behind it (C11 6.5.2.4, 6.5.3.1).
pub fn counted<'a>(
    text: &TypedText,
    state: &mut TreeState<'a>,
    expr: &'a Expr,
    up: bool,
    after: bool,
    arg: &'a Expr,
) -> Result<Room, NoMemory>
    ensures { IfOk result (λ room. (n : Numbering) (p : Program) → StandsFor n text.now p → MakesRoom (value_parts (text_of p) expr.now (Count up after arg.now)) room state.old state.new) }
{
    let Some(kind) = text.kind(arg.number) else {
        return Ok(Room::NotKept);
    };
    address_then(
        state,
        arg,
        Task::CountBy {
            up,
            after,
            place: arg.place,
            kind,
        },
    )
}
