//! The ends of functions and of runs (C11 5.1.2.2.3, 6.8.6.4, 6.9.1p12).
ghost use Rattle.std.specs.Prelude.{◌≡◌, [], ◌∷◌, List as Items, IfOk, MatchBool, OnErr};
ghost use Rattle.choices.specs.declared.choice.Choice.{Choice};
ghost use Rattle.c_machine.specs.declared.kind.Kind.TheVariants.{Void};
ghost use Rattle.c_machine.specs.declared.task.Task.TheVariants.{LeaveFunction};
ghost use Rattle.c_machine.specs.State.{Went, doing, with_operand};
ghost use Rattle.bytes_core.specs.declared.word.Word.TheVariants.{Plain};
ghost use Rattle.c_machine.specs.Choosing.{received};
ghost use Rattle.c_machine.specs.Step.{end_of_body, leave_function, returned};
ghost use Rattle.c_steps.specs.ComesTo.{comes_to};
ghost use Rattle.c_steps.specs.Leaving.{function_left, in_new_block};

use crate::choosing::receive;
use crate::fault::{BLOCK_NEVER_FREED, MEMORY_LOST};
use crate::going_on::go_on_doing;
use crate::outcome::Outcome;
use crate::pending::Choices;
use crate::state::State;
use bytes_core::Word;
use c_machine::{Kind, Task};
use cbase::{NoMemory, Place};
use std::alloc::Global;

/// A block begins.
pub fn open_block<E: Drop, S: Drop, I: Drop>(
    alloc: Global,
    state: &mut State<E, S, I>,
) -> Result<Outcome, NoMemory>
    ensures { IfOk result (λ outcome. (choices : Items Choice) → comes_to outcome state.new choices ≡ Went (in_new_block state.old) choices) }
{
    state.open_block(alloc)?;
    Ok(Outcome::Went)
}

/// The run is over, unless main may not return while an allocated block lives and one does.
fn end_run<E: Drop, S: Drop, I: Drop>(
    alloc: Global,
    state: &State<E, S, I>,
    strict: bool,
    place: Place,
) -> Result<Outcome, NoMemory>
    ensures { IfOk result (λ outcome. (choices : Items Choice) → comes_to outcome state.now choices ≡ returned strict [] place state.now choices) }
{
    if !strict {
        return Ok(Outcome::Ended);
    }
    if !state.memory().lost(alloc, &[])? {
        return Ok(Outcome::Ended);
    }
    Ok(Outcome::Faulted {
        kind: BLOCK_NEVER_FREED,
        place,
    })
}

/// Behind the return of a function its caller goes on; where there is none the run is over.
fn return_to_caller<E: Drop, S: Drop, I: Drop>(
    alloc: Global,
    state: &mut State<E, S, I>,
    strict: bool,
    place: Place,
) -> Result<Outcome, NoMemory>
    ensures { IfOk result (λ outcome. (choices : Items Choice) →
        comes_to outcome state.new choices ≡ returned strict state.old.callers place state.old choices) }
{
    if state.resume() {
        return Ok(Outcome::Went);
    }
    end_run(alloc, state, strict, place)
}

/// All blocks of a function are left at once, and loss is looked for. Then its caller goes on, or the run is over: where `strict` holds, main may not
/// return while an allocated block lives, which is fault 9.
pub fn leave_function<E: Drop, S: Drop, I: Drop>(
    alloc: Global,
    state: &mut State<E, S, I>,
    strict: bool,
    place: Place,
) -> Result<Outcome, NoMemory>
    ensures { IfOk result (λ outcome. (choices : Items Choice) →
        comes_to outcome state.new choices ≡ leave_function strict place (function_left state.old) choices) }
{
    state.leave_function();
    if state.is_lost(alloc)? {
        return Ok(Outcome::Faulted {
            kind: MEMORY_LOST,
            place,
        });
    }
    return_to_caller(alloc, state, strict, place)
}

/// A function without a result to choose answers 0.
fn answer_zero<E: Drop, S: Drop, I: Drop>(
    state: &mut State<E, S, I>,
    close: Place,
) -> Result<Outcome, NoMemory>
    ensures { IfOk result (λ outcome. (choices : Items Choice) →
        comes_to outcome state.new choices ≡ Went (doing (LeaveFunction close ∷ []) (with_operand (Plain 0) state.old)) choices) }
{
    state.push(Word::Plain(0))?;
    go_on_doing(state, Task::LeaveFunction(close))
}

/// The `}` of the body of a function: main answers 0, and another function with a result any input of it.
pub fn end_of_body<E: Drop, S: Drop, I: Drop>(
    state: &mut State<E, S, I>,
    choices: &mut Choices,
    main: bool,
    kind: Kind,
    close: Place,
) -> Result<Outcome, NoMemory>
    ensures ok { IfOk result (λ outcome. comes_to outcome state.new choices.new ≡ end_of_body main kind close state.old choices.old) }
    ensures err { OnErr result (choices.new ≡ choices.old) }
{
    if main || is_void(&kind) {
        return answer_zero(state, close);
    }
    receive_result(state, choices, kind, close)
}

/// Whether a function with a result of that kind answers nothing.
fn is_void(kind: &Kind) -> bool
    ensures { MatchBool result (kind.now ≡ Void) (kind.now ≡ Void → ⊥) }
{
    match kind {
        Kind::Void => true,
        _ => false,
    }
}

/// A function answers any input of its result.
fn receive_result<E: Drop, S: Drop, I: Drop>(
    state: &mut State<E, S, I>,
    choices: &mut Choices,
    kind: Kind,
    close: Place,
) -> Result<Outcome, NoMemory>
    ensures ok { IfOk result (λ outcome. comes_to outcome state.new choices.new
        ≡ received kind (doing (LeaveFunction close ∷ []) state.old) choices.old) }
    ensures err { OnErr result (choices.new ≡ choices.old) }
{
    state.do_first(Task::LeaveFunction(close))?;
    receive(state, choices, kind)
}
