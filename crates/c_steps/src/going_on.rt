//! How most steps end: the run goes on, with one more operand or with one more thing to do.
ghost use Rattle.std.specs.Prelude.{◌≡◌, ℕ, [], ◌∷◌, List as Items, Option, IfOk, OnOk, length};
ghost use Rattle.bytes_core.specs.Answer.{answer};
ghost use Rattle.bytes_core.specs.Valid.{WordNamesBelow};
ghost use Rattle.choices.specs.declared.choice.Choice.{Choice};
ghost use Rattle.c_machine.specs.State.{State as Machine, Went, doing, unless_fault, with_operand};
ghost use Rattle.c_steps.specs.ComesTo.{comes_to};

use crate::outcome::Outcome;
use crate::state::State;
use bytes_core::Word;
use c_machine::Task;
use cbase::{NoMemory, Place};

/// The run goes on with one more operand, which names a block of the memory if it is a pointer.
pub(crate) fn go_on_with<E: Drop, S: Drop, I: Drop>(
    state: &mut State<E, S, I>,
    operand: Word,
) -> Result<Outcome, NoMemory>
    requires { WordNamesBelow (length state.old.memory) operand }
    ensures { IfOk result (λ outcome. (choices : Items Choice) → comes_to outcome state.new choices ≡ Went (with_operand operand state.old) choices) }
{
    state.push(operand)?;
    Ok(Outcome::Went)
}

/// The run goes on with one more thing to do, before all others.
pub(crate) fn go_on_doing<E: Drop, S: Drop, I: Drop>(
    state: &mut State<E, S, I>,
    task: Task<E, S, I>,
) -> Result<Outcome, NoMemory>
    ensures { IfOk result (λ outcome. (choices : Items Choice) → comes_to outcome state.new choices ≡ Went (doing (task ∷ []) state.old) choices) }
{
    state.do_first(task)?;
    Ok(Outcome::Went)
}

/// The run goes on with one more operand behind what was done with the memory, unless that met a fault.
pub(crate) fn go_on_unless<E: Drop, S: Drop, I: Drop>(
    state: &mut State<E, S, I>,
    done: Result<(), u8>,
    place: Place,
    operand: Word,
) -> Result<Outcome, NoMemory>
    requires { WordNamesBelow (length state.old.memory) operand }
    ensures { (fault : Option ℕ) (next : Machine E S I) → done ≡ answer fault tt → OnOk done (state.old ≡ next) →
        IfOk result (λ outcome. (choices : Items Choice) →
        comes_to outcome state.new choices ≡ unless_fault fault place (Went (with_operand operand next) choices)) }
{
    match done {
        Err(kind) => Ok(Outcome::Faulted { kind, place }),
        Ok(()) => go_on_with(state, operand),
    }
}
