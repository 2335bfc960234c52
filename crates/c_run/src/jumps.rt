//! `break`, `continue` and `return` (C11 6.8.6).
ghost use Rattle.std.specs.Prelude.{◌≡◌, List as Items, IfOk};
ghost use Rattle.choices.specs.declared.choice.Choice.{Choice};
ghost use Rattle.c_machine.specs.declared.task.Task.TheVariants.{BreakAt, ContinueAt, GiveBack};
ghost use Rattle.c_machine.specs.Program.{Program};
ghost use Rattle.c_machine.specs.Statements.{after_break, loop_left};
ghost use Rattle.c_machine.specs.Step.{leave_loop};
ghost use Rattle.c_machine.specs.Trees.{text_of};
ghost use Rattle.c_steps.specs.ComesTo.{comes_to};
ghost use Rattle.c_run.specs.Stepped.{IsStepOf};

use crate::stepped::{Stepped, came};
use crate::tasks::{TreeState, is_for};
use c_machine::Kind;
use c_steps::Outcome;
use c_steps::leaving::{break_at, continue_at, give_back};
use cbase::{NoMemory, Place};

/// `break`: the innermost loop is left, and its block where it is a `for` (C11 6.8.6.3).
fn broken_off(state: &mut TreeState, word: Place) -> Result<Outcome, NoMemory>
    ensures { IfOk result (λ outcome. (p : Program) (choices : Items Choice) →
        comes_to outcome state.new choices ≡ leave_loop (loop_left state.old.tasks) (after_break (text_of p) word) state.old choices) }
{
    let Some(left) = state.leave_to_loop() else {
        return Ok(Outcome::Stuck);
    };
    let has_block = is_for(left.stmt.get());
    break_at(state, &left, has_block, word)
}

/// `break`.
pub(crate) fn break_step(state: &mut TreeState, word: Place) -> Result<Stepped, NoMemory>
    ensures { IfOk result (λ stepped. (p : Program) (choices : Items Choice) →
        IsStepOf (text_of p) (BreakAt word) stepped state.old choices state.new choices) }
{
    came(broken_off(state, word))
}

/// `continue`.
pub(crate) fn continue_step(state: &mut TreeState, word: Place) -> Result<Stepped, NoMemory>
    ensures { IfOk result (λ stepped. (p : Program) (choices : Items Choice) →
        IsStepOf (text_of p) (ContinueAt word) stepped state.old choices state.new choices) }
{
    came(continue_at(state, word))
}

/// `return` behind its value.
pub(crate) fn return_step(
    state: &mut TreeState,
    word: Place,
    kind: Kind,
) -> Result<Stepped, NoMemory>
    ensures { IfOk result (λ stepped. (p : Program) (choices : Items Choice) →
        IsStepOf (text_of p) (GiveBack word kind) stepped state.old choices state.new choices) }
{
    came(give_back(state, word, kind))
}
