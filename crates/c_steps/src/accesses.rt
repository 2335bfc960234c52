//! Loads, stores, updates, copies and fills (C11 6.3.2.1, 6.5.2.4, 6.5.3.1, 6.5.16, 6.7.9).
ghost use Rattle.std.specs.Prelude.{◌≡◌, ◌≤◌, [], ◌∷◌, List as Items, IfOk, IfSome, MatchResult, None, Some, false, length};
ghost use Rattle.bytes_core.specs.declared.word.Word.TheVariants.{Plain};
ghost use Rattle.bytes_core.specs.declared.word.Word.{Word};
ghost use Rattle.bytes_core.specs.Access.{access_fault, filled, loaded, range_fault};
ghost use Rattle.bytes_core.specs.Copying.{copied, copy_fault};
ghost use Rattle.bytes_core.specs.Valid.{WordNamesBelow};
ghost use Rattle.choices.specs.declared.choice.Choice.{Choice};
ghost use Rattle.typing.specs.ctypes.Integers.{int};
ghost use Rattle.c_machine.specs.State.{Went, popped, unless_fault, with_memory, with_operand};
ghost use Rattle.c_machine.specs.Step.{counted, counting, load_step, store_step, updated};
ghost use Rattle.c_machine.specs.Words.{is_pointer, scalar_bytes};
ghost use Rattle.c_steps.specs.ComesTo.{comes_to};

use crate::going_on::{go_on_unless, go_on_with};
use crate::outcome::Outcome;
use crate::state::State;
use crate::words::{as_kind, is_pointer, kind_after, operated, scalar_bytes};
use bytes_core::{Memory, Word};
use c_machine::{Kind, WholeType};
use cbase::{BinaryOp, NoMemory, Place};
use std::alloc::Global;

/// The word in so many bytes at an address, as a value of a type, or the fault that the access meets.
#[tactic(auto, using(crate::proofs::Answered::fault_met, crate::proofs::Answered::no_fault, crate::proofs::Answered::loaded_as))]
pub(crate) fn load_at(memory: &Memory, at: Word, bytes: u8, kind: &Kind) -> Result<Word, u8>
    ensures fault { MatchResult result (λ word. access_fault memory.now at bytes ≡ None) (λ found. access_fault memory.now at bytes ≡ Some found) }
    ensures word { IfOk result (λ word. word ≡ loaded memory.now at bytes (is_pointer kind.now)) }
    ensures names { IfOk result (λ word. WordNamesBelow (length memory.now) word) }
{
    memory.load(at, bytes, is_pointer(*kind))
}

/// The value of an lvalue is loaded (C11 6.3.2.1p2). The value of an array is its address, and a struct is not loaded.
pub fn load<E: Drop, S: Drop, I: Drop>(
    state: &mut State<E, S, I>,
    place: Place,
    kind: &Kind,
) -> Result<Outcome, NoMemory>
    ensures { IfOk result (λ outcome. (choices : Items Choice) →
        comes_to outcome state.new choices ≡ popped state.old (λ at after. load_step place kind.now (scalar_bytes kind.now) at after choices)) }
{
    let Some(at) = state.pop() else {
        return Ok(Outcome::Stuck);
    };
    let Some(bytes) = scalar_bytes(*kind) else {
        return go_on_with(state, at);
    };
    match load_at(state.memory(), at, bytes, kind) {
        Err(kind) => Ok(Outcome::Faulted { kind, place }),
        Ok(word) => go_on_with(state, word),
    }
}

/// A value is stored at an address, and is the value of the assignment (C11 6.5.16p3).
pub fn store<E: Drop, S: Drop, I: Drop>(
    state: &mut State<E, S, I>,
    place: Place,
    kind: Kind,
) -> Result<Outcome, NoMemory>
    ensures { IfOk result (λ outcome. (choices : Items Choice) →
        comes_to outcome state.new choices
        ≡ popped state.old (λ word before. popped before (λ at after. store_step place (scalar_bytes kind) at word after choices))) }
{
    let Some(word) = state.pop() else {
        return Ok(Outcome::Stuck);
    };
    let Some(at) = state.pop() else {
        return Ok(Outcome::Stuck);
    };
    let Some(bytes) = scalar_bytes(kind) else {
        return Ok(Outcome::Stuck);
    };
    let stored = state.store(at, bytes, word);
    go_on_unless(state, stored, place, word)
}

/// A struct of so many bytes is copied from one address to another.
pub fn copy_struct<E: Drop, S: Drop, I: Drop>(
    alloc: Global,
    state: &mut State<E, S, I>,
    place: Place,
    bytes: u64,
) -> Result<Outcome, NoMemory>
    ensures { IfOk result (λ outcome. (choices : Items Choice) →
        comes_to outcome state.new choices
        ≡ popped state.old (λ from before. popped before (λ to after.
        unless_fault (copy_fault state.old.memory to from bytes false) place
        (Went (with_operand (Plain 0) (with_memory (copied state.old.memory to from bytes) after)) choices)))) }
{
    let Some(from) = state.pop() else {
        return Ok(Outcome::Stuck);
    };
    let Some(to) = state.pop() else {
        return Ok(Outcome::Stuck);
    };
    let copied = state.copy(alloc, to, from, bytes as usize, false)?;
    go_on_unless(state, copied, place, Word::Plain(0))
}

/// So many bytes at an address become 0 (C11 6.7.9p21).
#[tactic(auto, using(crate::proofs::Answered::faulted, crate::proofs::Answered::passed))]
pub fn zero<E: Drop, S: Drop, I: Drop>(
    state: &mut State<E, S, I>,
    place: Place,
    bytes: u64,
) -> Outcome
    ensures { (choices : Items Choice) →
        comes_to result state.new choices
        ≡ popped state.old (λ at after.
        unless_fault (range_fault state.old.memory at bytes) place (Went (with_memory (filled state.old.memory at 0 bytes) after) choices)) }
{
    let Some(at) = state.pop() else {
        return Outcome::Stuck;
    };
    match state.fill(at, 0, bytes as usize) {
        Err(kind) => Outcome::Faulted { kind, place },
        Ok(()) => Outcome::Went,
    }
}
