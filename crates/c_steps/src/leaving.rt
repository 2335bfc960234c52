//! `break`, `continue` and `return`: what is to be done in the body that is left goes, and what unfinished expressions in it hold (C11 6.8.6).
ghost use Rattle.std.specs.Prelude.{◌≡◌, List as Items, IfOk, length, replicate};
ghost use Rattle.choices.specs.declared.choice.Choice.{Choice};
ghost use Rattle.c_machine.specs.declared.task.Task.TheVariants.{LeaveBlock};
ghost use Rattle.bytes_core.specs.Valid.{WordNamesBelow};
ghost use Rattle.c_machine.specs.State.{Went, doing, popped};
ghost use Rattle.c_machine.specs.Statements.{after_continue, body_left, loop_left};
ghost use Rattle.c_machine.specs.Step.{give_back, leave_loop};
ghost use Rattle.c_steps.specs.ComesTo.{comes_to};
ghost use Rattle.c_steps.specs.Leaving.{out_of_loop};

use crate::ends::{BodyEnd, LoopEnd};
use crate::going_on::go_on_doing;
use crate::outcome::Outcome;
use crate::state::State;
use crate::words::as_kind;
use bytes_core::Word;
use c_machine::{Kind, Task};
use cbase::{NoMemory, Place};

/// So many blocks are to be left, one by one from the inside, each with its look for loss.
fn do_leave<E: Drop, S: Drop, I: Drop>(
    state: &mut State<E, S, I>,
    blocks: usize,
    word: Place,
) -> Result<Outcome, NoMemory>
    ensures { IfOk result (λ outcome. (choices : Items Choice) →
        comes_to outcome state.new choices ≡ Went (doing (replicate blocks (LeaveBlock word)) state.old) choices) }
{
    let mut put = 0;
    while put < blocks {
        state.do_first(Task::LeaveBlock(word))?;
        put += 1;
    }
    Ok(Outcome::Went)
}

/// `continue`: the blocks in the body of the innermost loop are left one by one, all at the word, and the loop goes on (C11 6.8.6.2).
pub fn continue_at<E: Drop, S: Drop, I: Drop>(
    state: &mut State<E, S, I>,
    word: Place,
) -> Result<Outcome, NoMemory>
    ensures { IfOk result (λ outcome. (choices : Items Choice) →
        comes_to outcome state.new choices ≡ leave_loop (loop_left state.old.tasks) (after_continue word) state.old choices) }
{
    let Some(left) = state.leave_to_loop() else {
        return Ok(Outcome::Stuck);
    };
    let LoopEnd { blocks, stmt, held } = left;
    state.keep_oldest(held);
    state.do_first(Task::Again { stmt, held })?;
    do_leave(state, blocks, word)
}

/// `break`, behind the way to its loop: the blocks in the body are left one by one, all at the word, and so is the block of a `for` (C11 6.8.6.3).
///
/// `left` is what [`State::leave_to_loop`] answered, and `is_for` says whether that loop is a `for`.
pub fn break_at<E: Drop, S: Drop, I: Drop>(
    state: &mut State<E, S, I>,
    left: &LoopEnd<S>,
    is_for: bool,
    word: Place,
) -> Result<Outcome, NoMemory>
    ensures { IfOk result (λ outcome. (choices : Items Choice) →
        comes_to outcome state.new choices ≡ Went (out_of_loop is_for word left.now.blocks left.now.held state.old) choices) }
{
    state.keep_oldest(left.held);
    if is_for {
        state.leave_for_at(word)?;
    }
    do_leave(state, left.blocks, word)
}

/// `return` behind its value: it is converted to the result of the function and kept, and all blocks of the function are left next (C11 6.8.6.4).
pub fn give_back<E: Drop, S: Drop, I: Drop>(
    state: &mut State<E, S, I>,
    word: Place,
    kind: Kind,
) -> Result<Outcome, NoMemory>
    ensures { IfOk result (λ outcome. (choices : Items Choice) →
        comes_to outcome state.new choices
        ≡ popped state.old (λ value after. give_back (body_left after.tasks) word kind value after choices)) }
{
    let Some(value) = state.pop() else {
        return Ok(Outcome::Stuck);
    };
    leave_body(state, word, kind, value)
}

/// The body of the function that runs is left with a value.
fn leave_body<E: Drop, S: Drop, I: Drop>(
    state: &mut State<E, S, I>,
    word: Place,
    kind: Kind,
    value: Word,
) -> Result<Outcome, NoMemory>
    requires { WordNamesBelow (length state.old.memory) value }
    ensures { IfOk result (λ outcome. (choices : Items Choice) →
        comes_to outcome state.new choices ≡ give_back (body_left state.old.tasks) word kind value state.old choices) }
{
    let Some(left) = state.leave_to_body() else {
        return Ok(Outcome::Stuck);
    };
    let BodyEnd { result, held } = left;
    let converted = as_kind(state.memory(), kind, result, value);
    state.keep_oldest(held);
    state.push(converted)?;
    go_on_doing(state, Task::LeaveFunction(word))
}
