//! `&&`, `||` and `?:` behind a value (C11 6.5.13, 6.5.14, 6.5.15).
ghost use Rattle.std.specs.Prelude.{◌≡◌, [], ◌∷◌, List as Items, true, IfOk, if◌then◌else◌};
ghost use Rattle.choices.specs.declared.choice.Choice.{Choice};
ghost use Rattle.c_machine.specs.declared.task.Task.TheVariants.{Answer, Convert, ValueOf};
ghost use Rattle.c_machine.specs.State.{Went, doing, popped};
ghost use Rattle.c_machine.specs.Step.{and_then, or_else};
ghost use Rattle.c_machine.specs.Words.{is_true};
ghost use Rattle.c_steps.specs.ComesTo.{comes_to};

use crate::going_on::{go_on_doing, go_on_with};
use crate::outcome::Outcome;
use crate::state::State;
use crate::words::is_true;
use bytes_core::Word;
use c_machine::{Kind, Task};
use cbase::NoMemory;

/// The right side is to be done, and then whether it is true.
fn do_right<E: Drop, S: Drop, I: Drop>(
    state: &mut State<E, S, I>,
    right: E,
) -> Result<Outcome, NoMemory>
    ensures { IfOk result (λ outcome. (choices : Items Choice) → comes_to outcome state.new choices ≡ Went (doing (ValueOf right ∷ Answer true ∷ []) state.old) choices) }
{
    state.do_first(Task::Answer(true))?;
    go_on_doing(state, Task::ValueOf(right))
}

/// An arm is to be done, and then its value is converted.
fn do_arm<E: Drop, S: Drop, I: Drop>(
    state: &mut State<E, S, I>,
    arm: E,
    from: Kind,
    to: Kind,
) -> Result<Outcome, NoMemory>
    ensures { IfOk result (λ outcome. (choices : Items Choice) →
        comes_to outcome state.new choices ≡ Went (doing (ValueOf arm ∷ Convert from to ∷ []) state.old) choices) }
{
    state.do_first(Task::Convert { from, to })?;
    go_on_doing(state, Task::ValueOf(arm))
}

/// `&&` behind its left side, whose value goes at once (C11 6.5.13p4).
pub fn and_then<E: Drop, S: Drop, I: Drop>(
    state: &mut State<E, S, I>,
    right: E,
) -> Result<Outcome, NoMemory>
    ensures { IfOk result (λ outcome. (choices : Items Choice) →
        comes_to outcome state.new choices
        ≡ popped state.old (λ word after. and_then (is_true state.old.memory word) (ValueOf right ∷ Answer true ∷ []) after choices)) }
{
    let Some(word) = state.pop() else {
        return Ok(Outcome::Stuck);
    };
    if !is_true(state.memory(), word) {
        return go_on_with(state, Word::Plain(0));
    }
    do_right(state, right)
}

/// `||` behind its left side, whose value goes at once (C11 6.5.14p4).
pub fn or_else<E: Drop, S: Drop, I: Drop>(
    state: &mut State<E, S, I>,
    right: E,
) -> Result<Outcome, NoMemory>
    ensures { IfOk result (λ outcome. (choices : Items Choice) →
        comes_to outcome state.new choices
        ≡ popped state.old (λ word after. or_else (is_true state.old.memory word) (ValueOf right ∷ Answer true ∷ []) after choices)) }
{
    let Some(word) = state.pop() else {
        return Ok(Outcome::Stuck);
    };
    if is_true(state.memory(), word) {
        return go_on_with(state, Word::Plain(1));
    }
    do_right(state, right)
}

/// `?:` behind its test: one of both arms, whose kinds are these, converted to the kind of the whole (C11 6.5.15p4, p5).
pub fn pick<E: Drop, S: Drop, I: Drop>(
    state: &mut State<E, S, I>,
    kind: Kind,
    one: E,
    one_kind: Kind,
    other: E,
    other_kind: Kind,
) -> Result<Outcome, NoMemory>
    ensures { IfOk result (λ outcome. (choices : Items Choice) →
        comes_to outcome state.new choices
        ≡ popped state.old (λ word after. Went (doing
        (if is_true state.old.memory word then ValueOf one ∷ Convert one_kind kind ∷ [] else ValueOf other ∷ Convert other_kind kind ∷ []) after) choices)) }
{
    let Some(word) = state.pop() else {
        return Ok(Outcome::Stuck);
    };
    if is_true(state.memory(), word) {
        return do_arm(state, one, one_kind, kind);
    }
    do_arm(state, other, other_kind, kind)
}
