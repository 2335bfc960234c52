//! `+=` and its like, `++` and `--` (C11 6.5.2.4, 6.5.3.1, 6.5.16.2).
ghost use Rattle.std.specs.Prelude.{◌≡◌, ◌≤◌, List as Items, None, Some, false, IfOk, IfSome, MatchResult, length};
ghost use Rattle.bytes_core.specs.declared.word.Word.TheVariants.{Plain};
ghost use Rattle.bytes_core.specs.Access.{access_fault, loaded};
ghost use Rattle.bytes_core.specs.Valid.{WordNamesBelow};
ghost use Rattle.choices.specs.declared.choice.Choice.{Choice};
ghost use Rattle.typing.specs.ctypes.Integers.{int};
ghost use Rattle.c_machine.specs.declared.kind.Kind.TheVariants.{Integer};
ghost use Rattle.c_machine.specs.State.{popped};
ghost use Rattle.c_machine.specs.Step.{counted, counting, stored_result, updated};
ghost use Rattle.c_machine.specs.Words.{is_pointer, kind_after, operated, scalar_bytes};
ghost use Rattle.c_steps.specs.ComesTo.{comes_to};

use crate::accesses::load_at;
use crate::going_on::go_on_with;
use crate::outcome::Outcome;
use crate::state::State;
use crate::words::{as_kind, kind_after, operated, scalar_bytes};
use bytes_core::Word;
use c_machine::{Kind, WholeType};
use cbase::{BinaryOp, NoMemory, Place};

/// The value that an update has: the old one, or the new one.
fn counted(keeps_old: bool, old: Word, new: Word) -> Word
    ensures { result ≡ counted keeps_old old new }
{
    if keeps_old { old } else { new }
}

/// `++` adds 1, and `--` takes it away.
fn counting(up: bool) -> BinaryOp
    ensures { result ≡ counting up }
{
    if up { BinaryOp::Add } else { BinaryOp::Sub }
}

/// The value at an address, as a value of a type, or the fault that the access meets.
fn old_value<E: Drop, S: Drop, I: Drop>(
    state: &State<E, S, I>,
    at: Word,
    bytes: u8,
    kind: &Kind,
) -> Result<Word, u8>
    ensures fault { MatchResult result (λ word. access_fault state.now.memory at bytes ≡ None) (λ found. access_fault state.now.memory at bytes ≡ Some found) }
    ensures word { IfOk result (λ word. word ≡ loaded state.now.memory at bytes (is_pointer kind.now)) }
    ensures names { IfOk result (λ word. WordNamesBelow (length state.now.memory) word) }
{
    load_at(state.memory(), at, bytes, kind)
}

/// What an operator makes of the old value and of one on the right.
fn made_value<E: Drop, S: Drop, I: Drop>(
    state: &State<E, S, I>,
    op: BinaryOp,
    kind: &Kind,
    right: &Kind,
    old: Word,
    word: Word,
) -> Option<Word>
    requires old { WordNamesBelow (length state.now.memory) old }
    requires word { WordNamesBelow (length state.now.memory) word }
    ensures is { result ≡ operated state.now.memory op kind.now right.now old word }
    ensures names { IfSome result (λ made. WordNamesBelow (length state.now.memory) made) }
{
    operated(state.memory(), op, *kind, *right, old, word)
}

/// What an operator made is converted and stored, where that meets no fault.
#[tactic(auto, using(crate::proofs::NamedWords::names_of_converted, crate::proofs::NamedWords::names_of_counted, crate::proofs::Answered::never_answered))]
fn store_result<E: Drop, S: Drop, I: Drop>(
    state: &mut State<E, S, I>,
    from: Kind,
    kind: &Kind,
    bytes: u8,
    at: Word,
    made: Word,
    old: Word,
    keeps_old: bool,
) -> Result<Outcome, NoMemory>
    requires size { bytes ≤ 8 }
    requires made { WordNamesBelow (length state.old.memory) made }
    requires old { WordNamesBelow (length state.old.memory) old }
    requires access { access_fault state.old.memory at bytes ≡ None }
    ensures { IfOk result (λ outcome. (choices : Items Choice) →
        comes_to outcome state.new choices ≡ stored_result from kind.now bytes at (Some made) (counted keeps_old old) state.old choices) }
{
    let new = as_kind(state.memory(), from, *kind, made);
    let Ok(()) = state.store(at, bytes, new) else {
        unreachable!()
    };
    go_on_with(state, counted(keeps_old, old, new))
}

/// The value at an address is loaded, and what an operator makes of it and of one on the right is converted and stored.
fn updated<E: Drop, S: Drop, I: Drop>(
    state: &mut State<E, S, I>,
    op: BinaryOp,
    place: Place,
    kind: &Kind,
    right: &Kind,
    at: Word,
    word: Word,
    keeps_old: bool,
) -> Result<Outcome, NoMemory>
    requires { WordNamesBelow (length state.old.memory) word }
    ensures { IfOk result (λ outcome. (choices : Items Choice) →
        comes_to outcome state.new choices ≡ updated op place kind.now (scalar_bytes kind.now) right.now at word (counted keeps_old) state.old choices) }
{
    let Some(bytes) = scalar_bytes(*kind) else {
        return Ok(Outcome::Stuck);
    };
    let old = match old_value(state, at, bytes, kind) {
        Err(kind) => return Ok(Outcome::Faulted { kind, place }),
        Ok(old) => old,
    };
    let Some(made) = made_value(state, op, kind, right, old, word) else {
        return Ok(Outcome::Ended);
    };
    let from = kind_after(op, *kind, *right);
    store_result(state, from, kind, bytes, at, made, old, keeps_old)
}

/// `+=` and its like, with a value of the kind `right` on the right (C11 6.5.16.2).
pub fn update<E: Drop, S: Drop, I: Drop>(
    state: &mut State<E, S, I>,
    op: BinaryOp,
    place: Place,
    kind: &Kind,
    right: &Kind,
) -> Result<Outcome, NoMemory>
    ensures { IfOk result (λ outcome. (choices : Items Choice) →
        comes_to outcome state.new choices
        ≡ popped state.old (λ word before. popped before (λ at after.
        updated op place kind.now (scalar_bytes kind.now) right.now at word (counted false) after choices))) }
{
    let Some(word) = state.pop() else {
        return Ok(Outcome::Stuck);
    };
    let Some(at) = state.pop() else {
        return Ok(Outcome::Stuck);
    };
    updated(state, op, place, kind, right, at, word, false)
}

/// `++` and `--`, which answer the old value where they stand behind their operand (C11 6.5.2.4p2, 6.5.3.1p2).
pub fn count_by<E: Drop, S: Drop, I: Drop>(
    state: &mut State<E, S, I>,
    up: bool,
    after: bool,
    place: Place,
    kind: &Kind,
) -> Result<Outcome, NoMemory>
    ensures { IfOk result (λ outcome. (choices : Items Choice) →
        comes_to outcome state.new choices
        ≡ popped state.old (λ at next. updated (counting up) place kind.now (scalar_bytes kind.now) (Integer int) at (Plain 1) (counted after) next choices)) }
{
    let Some(at) = state.pop() else {
        return Ok(Outcome::Stuck);
    };
    let right = Kind::Integer(WholeType::int());
    updated(
        state,
        counting(up),
        place,
        kind,
        &right,
        at,
        Word::Plain(1),
        after,
    )
}
