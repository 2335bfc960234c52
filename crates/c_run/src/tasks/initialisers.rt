//! Initialisers (C11 6.7.9).
ghost use Rattle.std.specs.Prelude.{◌≡◌, true, false, [], ◌∷◌, ◌++◌, Some, map, IfOk, OnOk};
ghost use Rattle.cbase.specs.declared.tree.expr.ExprForm.TheViews.{out-InitPart};
ghost use Rattle.cbase.specs.declared.tree.init.InitPart.{InitPart};
ghost use Rattle.c_machine.specs.declared.kind.Kind.{Kind};
ghost use Rattle.c_machine.specs.declared.kind.Kind.TheVariants.{Struct};
ghost use Rattle.c_machine.specs.declared.object.Object.{Object};
ghost use Rattle.c_machine.specs.declared.task.Task.TheVariants.{AddressOf, Convert, CopyStruct, Finish, Initialise, ObjectAt, Shift, Store as StoreTask, ValueOf};
ghost use Rattle.c_machine.specs.Blocks.{declared_tasks, initialiser_tasks, set, zeroed};
ghost use Rattle.c_machine.specs.Expressions.{value_kind};
ghost use Rattle.c_machine.specs.State.{doing};
ghost use Rattle.expressions.specs.Numbers.{Numbering};
ghost use Rattle.c_machine.specs.Program.{Program};
ghost use Rattle.c_machine.specs.Trees.{name_of, text_of};
ghost use Rattle.c_text.specs.Kept.{is_sized, kept};
ghost use Rattle.c_text.specs.Stands.{StandsFor};
ghost use Rattle.c_run.specs.tasks.Room.{are_kept, kinds_in, MakesRoom};

use crate::tasks::kinds::{struct_bytes, value_kind};
use crate::tasks::pushes::{alone, do_conversion, unknown};
use crate::tasks::room::Room;
use crate::tasks::state::{TreeState, TreeTask};
use c_machine::{Object, Task};
use c_steps::Tree;
use c_text::{Store, TypedText};
use cbase::{Declared, Expr, Init, InitPart, NoMemory, Place};

/// What is to be done for a declared name: only an automatic object with an initialiser does something (C11 6.7.9).
pub fn declared_tasks<'a>(
    text: &TypedText,
    state: &mut TreeState<'a>,
    name: &'a Declared,
) -> Result<Room, NoMemory>
    ensures { IfOk result (λ room. (n : Numbering) (p : Program) → StandsFor n text.now p → MakesRoom (declared_tasks (text_of p) (name_of name.now)) room state.old state.new) }
{
    let Some(init) = &name.init else {
        return Ok(Room::Made);
    };
    match text.automatic(name.place.at) {
        None => initialised_large(state, name.place, init),
        Some(None) => Ok(Room::Made),
        Some(Some(object)) => initialised_object(text, state, name.place, object, init),
    }
}

/// An object whose size is kept is initialised: braces first fill the whole object with 0 (C11 6.7.9p19, p21).
fn initialised_object<'a>(
    text: &TypedText,
    state: &mut TreeState<'a>,
    place: Place,
    object: Object,
    init: &'a Init,
) -> Result<Room, NoMemory>
    ensures { IfOk result (λ room. (n : Numbering) (p : Program) → StandsFor n text.now p → is_sized object ≡ true
        → MakesRoom (zeroed (text_of p) place object ((text_of p).initialiser init.now) ++ Initialise place init.now ∷ []) room state.old state.new) }
{
    state.do_first(Task::Initialise {
        place,
        init: Tree::of(init),
    })?;
    match init {
        Init::Value { .. } => Ok(Room::Made),
        Init::Braces(_) => object_then(
            text,
            state,
            place,
            Task::Zero {
                place,
                bytes: object.bytes,
            },
        ),
    }
}

/// The same of an object whose size is not kept.
fn initialised_large<'a>(
    state: &mut TreeState<'a>,
    place: Place,
    init: &'a Init,
) -> Result<Room, NoMemory>
    ensures { IfOk result (λ room. (p : Program) (object : Object) → is_sized object ≡ false
        → MakesRoom (zeroed (text_of p) place object ((text_of p).initialiser init.now) ++ Initialise place init.now ∷ []) room state.old state.new) }
{
    match init {
        Init::Value { .. } => alone(
            state,
            Task::Initialise {
                place,
                init: Tree::of(init),
            },
        ),
        Init::Braces(_) => Ok(Room::NotKept),
    }
}

/// What is to be done for an initialiser of the object whose name stands there: its values, from left to right (C11 6.7.9).
pub fn initialiser_tasks<'a>(
    text: &TypedText,
    state: &mut TreeState<'a>,
    place: Place,
    init: &'a Init,
) -> Result<Room, NoMemory>
    ensures { IfOk result (λ room. (n : Numbering) (p : Program) → StandsFor n text.now p → MakesRoom (initialiser_tasks (text_of p) place init.now) room state.old state.new) }
{
    match init {
        Init::Value { value, after } => set(text, state, place, value, *after),
        Init::Braces(parts) => each_part(state, place, parts.as_slice()),
    }
}

/// The parts of an initialiser in braces, in order.
fn each_part<'a>(
    state: &mut TreeState<'a>,
    place: Place,
    parts: &'a [InitPart],
) -> Result<Room, NoMemory>
    ensures { IfOk result (λ room. MakesRoom (map (λ (part : InitPart). Initialise place (out-InitPart part).init) parts.now) room state.old state.new) }
{
    let mut left = parts.len();
    while left > 0 {
        left -= 1;
        do_part(state, place, &parts[left])?;
    }
    Ok(Room::Made)
}

/// A part of an initialiser in braces.
fn do_part<'a>(state: &mut TreeState<'a>, place: Place, part: &'a InitPart) -> Result<(), NoMemory>
    ensures { OnOk result (state.new ≡ doing (Initialise place (out-InitPart part.now).init ∷ []) state.old) }
{
    state.do_first(Task::Initialise {
        place,
        init: Tree::of(&part.init),
    })
}

/// A value of an initialiser, a full expression, which ends at the token of that place: a struct is copied as a whole, and any other value is stored
/// (C11 6.7.9p11, p13, 6.8p4).
fn set<'a>(
    text: &TypedText,
    state: &mut TreeState<'a>,
    place: Place,
    value: &'a Expr,
    after: Place,
) -> Result<Room, NoMemory>
    ensures { IfOk result (λ room. (n : Numbering) (p : Program) → StandsFor n text.now p
        → MakesRoom (set (text_of p) place value.now after ((text_of p).store place value.now)) room state.old state.new) }
{
    match text.store(place.at, value.number) {
        None => Ok(Room::NotKept),
        Some(None) => unknown(state),
        Some(Some(store)) => match struct_bytes(&store.kind) {
            None => set_value(text, state, place, value, after, &store),
            Some(bytes) => set_struct(text, state, place, value, after, store.offset, bytes),
        },
    }
}

/// A struct of so many bytes is copied to its place in the object.
fn set_struct<'a>(
    text: &TypedText,
    state: &mut TreeState<'a>,
    place: Place,
    value: &'a Expr,
    after: Place,
    offset: u64,
    bytes: u64,
) -> Result<Room, NoMemory>
    ensures { IfOk result (λ room. (n : Numbering) (p : Program) → StandsFor n text.now p → are_kept (Struct bytes ∷ []) ≡ true
        → MakesRoom (ObjectAt ((text_of p).token place) ∷ Shift offset ∷ AddressOf value.now ∷ CopyStruct place bytes ∷ Finish after ∷ []) room state.old state.new) }
{
    state.do_first(Task::Finish(after))?;
    state.do_first(Task::CopyStruct { place, bytes })?;
    state.do_first(Task::AddressOf(Tree::of(value)))?;
    object_then(text, state, place, Task::Shift(offset))
}

/// A value is converted and stored at its place in the object.
fn set_value<'a>(
    text: &TypedText,
    state: &mut TreeState<'a>,
    place: Place,
    value: &'a Expr,
    after: Place,
    store: &Store,
) -> Result<Room, NoMemory>
    ensures { IfOk result (λ room. (n : Numbering) (p : Program) (kind : Kind) → StandsFor n text.now p → Some store.now.kind ≡ kept kind
        → MakesRoom (ObjectAt ((text_of p).token place) ∷ Shift store.now.offset ∷ ValueOf value.now ∷ Convert (value_kind (text_of p) value.now) kind
        ∷ StoreTask place kind ∷ Finish after ∷ []) room state.old state.new) }
{
    let Some(from) = value_kind(text, value) else {
        return Ok(Room::NotKept);
    };
    state.do_first(Task::Finish(after))?;
    do_conversion(state, place, value, from, &store.kind)?;
    object_then(text, state, place, Task::Shift(store.offset))
}

/// The address of the object whose name stands there, and then another thing.
fn object_then<'a>(
    text: &TypedText,
    state: &mut TreeState<'a>,
    place: Place,
    task: TreeTask<'a>,
) -> Result<Room, NoMemory>
    ensures { IfOk result (λ room. (n : Numbering) (p : Program) → StandsFor n text.now p → are_kept (kinds_in (task.entry ∷ [])) ≡ true
        → MakesRoom (ObjectAt ((text_of p).token place) ∷ task.entry ∷ []) room state.old state.new) }
{
    state.do_first(task)?;
    alone(state, Task::ObjectAt(text.first_token(place.at)))
}
