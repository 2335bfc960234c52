ghost use Rattle.std.specs.Prelude.{◌≡◌, IfNone, IfOk, IfSome, Ok, OnErr};
ghost use Rattle.c_steps.specs.declared.outcome.Outcome.TheVariants.{Stuck};
ghost use Rattle.c_steps.specs.ComesTo.{comes_to};
ghost use Rattle.c_steps.specs.PlainStep.{plain_step};

use crate::accesses::{copy_struct, load, store, zero};
use crate::branches::{and_then, or_else};
use crate::built_ins::run_built_in;
use crate::choosing::{make_object, make_parameter, make_static};
use crate::functions::{end_of_body, leave_function, open_block};
use crate::losses::{finish, keep, leave_block};
use crate::operands::{answer, apply, convert, let_go, object_at, operate, push, shift};
use crate::outcome::Outcome;
use crate::pending::Choices;
use crate::state::State;
use crate::updates::{count_by, update};
use c_machine::Task;
use cbase::NoMemory;
use std::alloc::Global;

/// The step of a thing to do that is taken off those of a state, where it asks no tree and not what else is to be done. Any other changes nothing, and is
/// answered with [`Outcome::Stuck`].
///
/// `strict` says whether main may not return while an allocated block lives. A step takes time for what it changes; a look for loss takes time for the
/// bytes of the memory, the objects and the operands.
pub fn plain_step<E: Drop, S: Drop, I: Drop>(
    alloc: Global,
    state: &mut State<E, S, I>,
    choices: &mut Choices,
    strict: bool,
    task: Task<E, S, I>,
) -> Result<Outcome, NoMemory>
    ensures plain { IfOk result (λ outcome. IfSome (plain_step strict task state.old choices.old) (λ comes. comes_to outcome state.new choices.new ≡ comes)) }
    ensures err { OnErr result (choices.new ≡ choices.old) }
    ensures other { IfNone (plain_step strict task state.old choices.old) ((result ≡ Ok Stuck) × ((state.new ≡ state.old) × (choices.new ≡ choices.old))) }
{
    match task {
        Task::Push(number) => push(state, number),
        Task::ObjectAt(token) => object_at(state, token),
        Task::Shift(bytes) => shift(state, bytes),
        Task::Load { place, kind } => load(state, place, &kind),
        Task::Convert { from, to } => convert(state, from, to),
        Task::Apply { op, kind } => apply(state, op, kind),
        Task::Operate { op, left, right } => operate(state, op, left, right),
        Task::Answer(holds) => answer(state, holds),
        Task::AndThen(right) => and_then(state, right),
        Task::OrElse(right) => or_else(state, right),
        Task::Drop => Ok(let_go(state)),
        Task::Store { place, kind } => store(state, place, kind),
        Task::Update {
            op,
            place,
            kind,
            right,
        } => update(state, op, place, &kind, &right),
        Task::CountBy {
            up,
            after,
            place,
            kind,
        } => count_by(state, up, after, place, &kind),
        Task::CopyStruct { place, bytes } => { copy_struct(alloc, state, place, bytes) }
        Task::RunBuiltIn {
            what,
            place,
            result,
        } => run_built_in(alloc, state, choices, what, place, result),
        Task::EndRun => Ok(Outcome::Ended),
        Task::Finish(place) => finish(alloc, state, place),
        Task::Keep(place) => keep(alloc, state, place),
        Task::OpenBlock => open_block(alloc, state),
        Task::MakeObject(object) => make_object(alloc, state, choices, object),
        Task::MakeParameter(object) => make_parameter(alloc, state, choices, object),
        Task::MakeStatic(object) => make_static(alloc, state, choices, object),
        Task::LeaveBlock(place) => leave_block(alloc, state, place),
        Task::Zero { place, bytes } => Ok(zero(state, place, bytes)),
        Task::LeaveFunction(place) => leave_function(alloc, state, strict, place),
        Task::EndOfBody {
            main,
            result,
            close,
            held: _,
        } => end_of_body(state, choices, main, result, close),
        Task::ValueOf(_)
        | Task::AddressOf(_)
        | Task::Pick { .. }
        | Task::CallDefined(_)
        | Task::Execute(_)
        | Task::Branch(_)
        | Task::Test(_)
        | Task::Again { .. }
        | Task::Initialise { .. }
        | Task::BreakAt(_)
        | Task::ContinueAt(_)
        | Task::GiveBack { .. }
        | Task::Unknown => Ok(Outcome::Stuck),
    }
}
