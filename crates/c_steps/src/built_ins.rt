//! Functions that are built in, behind their arguments (C11 7.22.3, 7.24).
ghost use Rattle.std.specs.Prelude.{◌≡◌, ◌∷◌, ◌*◌, List as Items, IfOk, OnErr, pos};
ghost use Rattle.bytes_core.specs.declared.block.BlockKind.TheVariants as storage;
ghost use Rattle.bytes_core.specs.declared.word.Word.TheVariants.{To};
ghost use Rattle.choices.specs.declared.choice.Choice.{Choice};
ghost use Rattle.c_machine.specs.Choosing.{allocated, with_block};
ghost use Rattle.c_machine.specs.State.{Went, popped, with_operand};
ghost use Rattle.c_machine.specs.Step.{assumed, built_in_step, calloc_step, copy_step, free_step, malloc_step, memset_step};
ghost use Rattle.c_machine.specs.Words.{is_true};
ghost use Rattle.c_steps.specs.ComesTo.{comes_to};

use crate::choosing::{receive, with_block};
use crate::going_on::{go_on_unless, go_on_with};
use crate::operands::let_go;
use crate::outcome::Outcome;
use crate::pending::Choices;
use crate::state::State;
use crate::words::is_true;
use bytes_core::{BlockKind, Word};
use c_machine::{BuiltIn, Kind};
use cbase::{NoMemory, Place};
use choices::Choice;
use std::alloc::Global;

/// A block of the heap is made, and its address is an operand.
fn make_heap_block<E: Drop, S: Drop, I: Drop>(
    alloc: Global,
    state: &mut State<E, S, I>,
    choices: &mut Choices,
    size: u128,
    zeroed: bool,
) -> Result<Outcome, NoMemory>
    ensures ok { IfOk result (λ outcome. comes_to outcome state.new choices.new
        ≡ with_block storage.Heap size zeroed state.old choices.old (λ after block more. Went (with_operand (To block (pos 0)) after) more)) }
    ensures err { OnErr result (choices.new ≡ choices.old) }
{
    match with_block(alloc, state, choices, BlockKind::Heap, size, zeroed)? {
        Err(outcome) => Ok(outcome),
        Ok(block) => {
            state.push(Word::To { block, offset: 0 })?;
            choices.take();
            Ok(Outcome::Went)
        }
    }
}

/// An allocation answers null or a new block, as is chosen (C11 7.22.3p1).
fn allocate<E: Drop, S: Drop, I: Drop>(
    alloc: Global,
    state: &mut State<E, S, I>,
    choices: &mut Choices,
    size: u128,
    zeroed: bool,
) -> Result<Outcome, NoMemory>
    ensures ok { IfOk result (λ outcome. comes_to outcome state.new choices.new ≡ allocated size zeroed state.old choices.old) }
    ensures err { OnErr result (choices.new ≡ choices.old) }
{
    let Some(first) = choices.first() else {
        return Ok(Outcome::Waits);
    };
    match first {
        Choice::None => {
            state.push(Word::Plain(0))?;
            choices.take();
            Ok(Outcome::Went)
        }
        Choice::Input(_) => Ok(Outcome::Ended),
        Choice::Block { .. } => make_heap_block(alloc, state, choices, size, zeroed),
    }
}

/// `malloc` (C11 7.22.3.4).
fn malloc<E: Drop, S: Drop, I: Drop>(
    alloc: Global,
    state: &mut State<E, S, I>,
    choices: &mut Choices,
) -> Result<Outcome, NoMemory>
    ensures ok { IfOk result (λ outcome. comes_to outcome state.new choices.new ≡ malloc_step state.old choices.old) }
    ensures err { OnErr result (choices.new ≡ choices.old) }
{
    let Some(size) = state.pop() else {
        return Ok(Outcome::Stuck);
    };
    let size = state.memory().address(size);
    allocate(alloc, state, choices, size as u128, false)
}

/// `calloc` (C11 7.22.3.2): the product of both arguments is no number of C, and wraps nowhere.
fn calloc<E: Drop, S: Drop, I: Drop>(
    alloc: Global,
    state: &mut State<E, S, I>,
    choices: &mut Choices,
) -> Result<Outcome, NoMemory>
    ensures ok { IfOk result (λ outcome. comes_to outcome state.new choices.new ≡ calloc_step state.old choices.old) }
    ensures err { OnErr result (choices.new ≡ choices.old) }
{
    let Some(size) = state.pop() else {
        return Ok(Outcome::Stuck);
    };
    let Some(count) = state.pop() else {
        return Ok(Outcome::Stuck);
    };
    let size = state.memory().address(size);
    let count = state.memory().address(count);
    allocate(alloc, state, choices, product(count, size), true)
}

/// A product that does not wrap.
fn product(count: u64, size: u64) -> u128
    ensures { result ≡ count * size }
{
    count as u128 * size as u128
}

/// `free` (C11 7.22.3.3).
fn free<E: Drop, S: Drop, I: Drop>(
    state: &mut State<E, S, I>,
    place: Place,
) -> Result<Outcome, NoMemory>
    ensures { IfOk result (λ outcome. (choices : Items Choice) → comes_to outcome state.new choices ≡ free_step place state.old choices) }
{
    let Some(word) = state.pop() else {
        return Ok(Outcome::Stuck);
    };
    let freed = state.free(word);
    go_on_unless(state, freed, place, Word::Plain(0))
}

/// `memset` (C11 7.24.6.1): it answers its first argument.
fn memset<E: Drop, S: Drop, I: Drop>(
    state: &mut State<E, S, I>,
    place: Place,
) -> Result<Outcome, NoMemory>
    ensures { IfOk result (λ outcome. (choices : Items Choice) → comes_to outcome state.new choices ≡ memset_step place state.old choices) }
{
    let Some(count) = state.pop() else {
        return Ok(Outcome::Stuck);
    };
    let Some(byte) = state.pop() else {
        return Ok(Outcome::Stuck);
    };
    let Some(at) = state.pop() else {
        return Ok(Outcome::Stuck);
    };
    let count = state.memory().address(count);
    let byte = (state.memory().address(byte) % 256) as u8;
    let filled = state.fill(at, byte, count as usize);
    go_on_unless(state, filled, place, at)
}

/// `memcpy` and `memmove` (C11 7.24.2.1, 7.24.2.2): they answer their first argument.
fn copy<E: Drop, S: Drop, I: Drop>(
    alloc: Global,
    state: &mut State<E, S, I>,
    place: Place,
    disjoint: bool,
) -> Result<Outcome, NoMemory>
    ensures { IfOk result (λ outcome. (choices : Items Choice) → comes_to outcome state.new choices ≡ copy_step disjoint place state.old choices) }
{
    let Some(count) = state.pop() else {
        return Ok(Outcome::Stuck);
    };
    let Some(from) = state.pop() else {
        return Ok(Outcome::Stuck);
    };
    let Some(to) = state.pop() else {
        return Ok(Outcome::Stuck);
    };
    let count = state.memory().address(count);
    let copied = state.copy(alloc, to, from, count as usize, disjoint)?;
    go_on_unless(state, copied, place, to)
}

/// An assumption: the run ends where it is 0.
fn assume<E: Drop, S: Drop, I: Drop>(state: &mut State<E, S, I>) -> Result<Outcome, NoMemory>
    ensures { IfOk result (λ outcome. (choices : Items Choice) →
        comes_to outcome state.new choices ≡ popped state.old (λ word after. assumed (is_true state.old.memory word) after choices)) }
{
    let Some(word) = state.pop() else {
        return Ok(Outcome::Stuck);
    };
    if !is_true(state.memory(), word) {
        return Ok(Outcome::Ended);
    }
    go_on_with(state, Word::Plain(0))
}

/// A function that is built in, with a result of that type, behind its arguments.
pub fn run_built_in<E: Drop, S: Drop, I: Drop>(
    alloc: Global,
    state: &mut State<E, S, I>,
    choices: &mut Choices,
    what: BuiltIn,
    place: Place,
    result_kind: Kind,
) -> Result<Outcome, NoMemory>
    ensures ok { IfOk result (λ outcome. comes_to outcome state.new choices.new ≡ built_in_step what place result_kind state.old choices.old) }
    ensures err { OnErr result (choices.new ≡ choices.old) }
{
    match what {
        BuiltIn::Malloc => malloc(alloc, state, choices),
        BuiltIn::Calloc => calloc(alloc, state, choices),
        BuiltIn::Free => free(state, place),
        BuiltIn::Memset => memset(state, place),
        BuiltIn::Memcpy => copy(alloc, state, place, true),
        BuiltIn::Memmove => copy(alloc, state, place, false),
        BuiltIn::EndsRun => Ok(Outcome::Ended),
        BuiltIn::Assume => assume(state),
        BuiltIn::Expect => Ok(let_go(state)),
        BuiltIn::GivesInput => receive(state, choices, result_kind),
    }
}
