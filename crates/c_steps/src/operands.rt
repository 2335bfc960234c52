ghost use Rattle.std.specs.Prelude.{◌≡◌, [], ◌∷◌, List as Items, IfOk, pos};
ghost use Rattle.bytes_core.specs.declared.word.Word.TheVariants.{Plain};
ghost use Rattle.bytes_core.specs.Value.{moved};
ghost use Rattle.choices.specs.declared.choice.Choice.{Choice};
ghost use Rattle.c_machine.specs.State.{Went, block_of, popped, with_operand};
ghost use Rattle.c_machine.specs.Step.{object_at, or_ended, or_stuck};
ghost use Rattle.c_machine.specs.Words.{applied, as_kind, is_true, operated, told};
ghost use Rattle.c_steps.specs.ComesTo.{comes_to};

use crate::going_on::go_on_with;
use crate::outcome::Outcome;
use crate::state::State;
use crate::words::{applied, as_kind, is_true, moved, operated, told};
use bytes_core::Word;
use c_machine::Kind;
use cbase::{BinaryOp, NoMemory, UnaryOp};

/// A number that is known.
pub fn push<E: Drop, S: Drop, I: Drop>(
    state: &mut State<E, S, I>,
    number: u64,
) -> Result<Outcome, NoMemory>
    ensures { IfOk result (λ outcome. (choices : Items Choice) → comes_to outcome state.new choices ≡ Went (with_operand (Plain number) state.old) choices) }
{
    go_on_with(state, Word::Plain(number))
}

/// A value is let go of.
pub fn let_go<E: Drop, S: Drop, I: Drop>(state: &mut State<E, S, I>) -> Outcome
    ensures { (choices : Items Choice) → comes_to result state.new choices ≡ popped state.old (λ word after. Went after choices) }
{
    match state.pop() {
        None => Outcome::Stuck,
        Some(_) => Outcome::Went,
    }
}

/// The address of the object that the name behind so many tokens declared first.
pub fn object_at<E: Drop, S: Drop, I: Drop>(
    state: &mut State<E, S, I>,
    token: u32,
) -> Result<Outcome, NoMemory>
    ensures { IfOk result (λ outcome. (choices : Items Choice) →
        comes_to outcome state.new choices ≡ object_at (block_of state.old token) state.old choices) }
{
    let Some(block) = state.block_of(token) else {
        return Ok(Outcome::Stuck);
    };
    go_on_with(state, Word::To { block, offset: 0 })
}

/// An address is moved by so many bytes.
pub fn shift<E: Drop, S: Drop, I: Drop>(
    state: &mut State<E, S, I>,
    bytes: u64,
) -> Result<Outcome, NoMemory>
    ensures { IfOk result (λ outcome. (choices : Items Choice) →
        comes_to outcome state.new choices ≡ popped state.old (λ word after. Went (with_operand (moved word (pos bytes)) after) choices)) }
{
    let Some(word) = state.pop() else {
        return Ok(Outcome::Stuck);
    };
    go_on_with(state, moved(word, bytes))
}

/// A value of one kind becomes one of another (C11 6.3).
pub fn convert<E: Drop, S: Drop, I: Drop>(
    state: &mut State<E, S, I>,
    from: Kind,
    to: Kind,
) -> Result<Outcome, NoMemory>
    ensures { IfOk result (λ outcome. (choices : Items Choice) →
        comes_to outcome state.new choices ≡ popped state.old (λ word after. Went (with_operand (as_kind state.old.memory from to word) after) choices)) }
{
    let Some(word) = state.pop() else {
        return Ok(Outcome::Stuck);
    };
    let converted = as_kind(state.memory(), from, to, word);
    go_on_with(state, converted)
}

/// A unary operator on a value (C11 6.5.3.3).
pub fn apply<E: Drop, S: Drop, I: Drop>(
    state: &mut State<E, S, I>,
    op: UnaryOp,
    kind: Kind,
) -> Result<Outcome, NoMemory>
    ensures { IfOk result (λ outcome. (choices : Items Choice) →
        comes_to outcome state.new choices ≡ popped state.old (λ word after. or_stuck (applied state.old.memory op kind word) after choices)) }
{
    let Some(word) = state.pop() else {
        return Ok(Outcome::Stuck);
    };
    let Some(value) = applied(state.memory(), op, kind, word) else {
        return Ok(Outcome::Stuck);
    };
    go_on_with(state, value)
}

/// A binary operator on two values (C11 6.5.5 to 6.5.12). Where it has no value the run ends.
pub fn operate<E: Drop, S: Drop, I: Drop>(
    state: &mut State<E, S, I>,
    op: BinaryOp,
    left: Kind,
    right: Kind,
) -> Result<Outcome, NoMemory>
    ensures { IfOk result (λ outcome. (choices : Items Choice) →
        comes_to outcome state.new choices
        ≡ popped state.old (λ other before. popped before (λ one after. or_ended (operated state.old.memory op left right one other) after choices))) }
{
    let Some(other) = state.pop() else {
        return Ok(Outcome::Stuck);
    };
    let Some(one) = state.pop() else {
        return Ok(Outcome::Stuck);
    };
    let Some(value) = operated(state.memory(), op, left, right, one, other) else {
        return Ok(Outcome::Ended);
    };
    go_on_with(state, value)
}

/// Whether a value is not 0, or, where `holds` is false, whether it is (C11 6.5.3.3p5).
pub fn answer<E: Drop, S: Drop, I: Drop>(
    state: &mut State<E, S, I>,
    holds: bool,
) -> Result<Outcome, NoMemory>
    ensures { IfOk result (λ outcome. (choices : Items Choice) →
        comes_to outcome state.new choices ≡ popped state.old (λ word after. Went (with_operand (told holds (is_true state.old.memory word)) after) choices)) }
{
    let Some(word) = state.pop() else {
        return Ok(Outcome::Stuck);
    };
    let truth = is_true(state.memory(), word);
    go_on_with(state, told(holds, truth))
}
