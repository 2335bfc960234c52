//! Steps that take a choice: exactly one, or they wait for it (C11 6.2.4, 7.22.3).
ghost use Rattle.std.specs.Prelude.{◌≡◌, ◌<◌, drop, false, length, pos, true, IfOk, MatchResult, OnErr};
ghost use Rattle.bytes_core.specs.declared.block.BlockKind.{BlockKind};
ghost use Rattle.bytes_core.specs.declared.word.Word.{Word};
ghost use Rattle.bytes_core.specs.declared.word.Word.TheVariants.{To};
ghost use Rattle.bytes_core.specs.Access.{stored};
ghost use Rattle.bytes_core.specs.Valid.{WordNamesBelow};
ghost use Rattle.c_machine.specs.Choosing.{allocated, object_made, parameter_made, received, static_made};
ghost use Rattle.c_machine.specs.State.{popped, with_memory};
ghost use Rattle.c_steps.specs.ComesTo.{comes_to};
ghost use Rattle.c_steps.specs.Making.{IsWhole, MakesBlock, MakesNone};

use crate::new_block::new_block;
use crate::outcome::Outcome;
use crate::pending::Choices;
use crate::state::State;
use crate::words::is_input;
use bytes_core::{BlockKind, Word};
use c_machine::{Kind, Object, Variable};
use cbase::NoMemory;
use choices::Choice;
use std::alloc::Global;

/// A new block of a kind and size, of zeros alone where that is asked: its base and its contents are the first choice, which is not taken yet. It is the
/// number of the block, which is to be read and written in all its bytes, or what the step comes to where there is none.
pub(crate) fn with_block<E: Drop, S: Drop, I: Drop>(
    alloc: Global,
    state: &mut State<E, S, I>,
    choices: &Choices,
    kind: BlockKind,
    size: u128,
    zeroed: bool,
) -> Result<Result<u32, Outcome>, NoMemory>
    ensures made { IfOk result (λ made. MatchResult made
        (λ block. MakesBlock kind size zeroed state.old choices.now state.new block (drop 1 choices.now))
        (λ outcome. MakesNone kind size zeroed state.old choices.now outcome)) }
    ensures below { IfOk result (λ made. IfOk made (λ block. block < length state.new.memory)) }
    ensures longer { IfOk result (λ made. IfOk made (λ block. (word : Word) → WordNamesBelow (length state.old.memory) word → WordNamesBelow (length state.new.memory) word)) }
    ensures whole { IfOk result (λ made. IfOk made (λ block. IsWhole state.new.memory block size)) }
{
    let Some(first) = choices.first() else {
        return Ok(Err(Outcome::Waits));
    };
    let Choice::Block { base, bytes } = first else {
        return Ok(Err(Outcome::Ended));
    };
    let made = new_block(
        alloc,
        state.memory(),
        kind,
        size,
        zeroed,
        *base,
        bytes.as_slice(),
    )?;
    let Some(block) = made else {
        return Ok(Err(Outcome::Ended));
    };
    Ok(Ok(state.place(block)?))
}

/// An object of the innermost block is made, with any contents (C11 6.2.4p6).
pub fn make_object<E: Drop, S: Drop, I: Drop>(
    alloc: Global,
    state: &mut State<E, S, I>,
    choices: &mut Choices,
    object: Object,
) -> Result<Outcome, NoMemory>
    ensures ok { IfOk result (λ outcome. comes_to outcome state.new choices.new ≡ object_made object state.old choices.old) }
    ensures err { OnErr result (choices.new ≡ choices.old) }
{
    match with_block(
        alloc,
        state,
        choices,
        BlockKind::Local,
        object.bytes as u128,
        false,
    )? {
        Err(outcome) => Ok(outcome),
        Ok(block) => {
            let token = object.token;
            state.declare(alloc, Variable { token, block })?;
            choices.take();
            Ok(Outcome::Went)
        }
    }
}

/// The lowest bytes of a word are stored in a block that has so many, of which a word has eight at most.
fn give_argument<E: Drop, S: Drop, I: Drop>(
    state: &mut State<E, S, I>,
    block: u32,
    bytes: u64,
    word: Word,
)
    requires whole { IsWhole state.old.memory block bytes }
    requires names { WordNamesBelow (length state.old.memory) word }
    ensures { state.new ≡ with_memory (stored state.old.memory (To block (pos 0)) bytes word) state.old }
{
    let size = bytes.min(8) as u8;
    match state.store(Word::To { block, offset: 0 }, size, word) {
        Ok(()) => {}
        Err(_) => unreachable!(),
    }
}

/// A parameter is made as an object of the innermost block, and gets this argument.
fn make_with<E: Drop, S: Drop, I: Drop>(
    alloc: Global,
    state: &mut State<E, S, I>,
    choices: &mut Choices,
    object: Object,
    word: Word,
) -> Result<Outcome, NoMemory>
    requires { WordNamesBelow (length state.old.memory) word }
    ensures ok { IfOk result (λ outcome. comes_to outcome state.new choices.new ≡ parameter_made object word state.old choices.old) }
    ensures err { OnErr result (choices.new ≡ choices.old) }
{
    match with_block(
        alloc,
        state,
        choices,
        BlockKind::Local,
        object.bytes as u128,
        false,
    )? {
        Err(outcome) => Ok(outcome),
        Ok(block) => {
            let token = object.token;
            give_argument(state, block, object.bytes, word);
            state.declare(alloc, Variable { token, block })?;
            choices.take();
            Ok(Outcome::Went)
        }
    }
}

/// A parameter is made as an object of the innermost block, and gets the argument that is computed for it (C11 6.9.1p9, p10).
pub fn make_parameter<E: Drop, S: Drop, I: Drop>(
    alloc: Global,
    state: &mut State<E, S, I>,
    choices: &mut Choices,
    object: Object,
) -> Result<Outcome, NoMemory>
    ensures ok { IfOk result (λ outcome. comes_to outcome state.new choices.new ≡ popped state.old (λ word after. parameter_made object word after choices.old)) }
    ensures err { OnErr result (choices.new ≡ choices.old) }
{
    let Some(word) = state.pop() else {
        return Ok(Outcome::Stuck);
    };
    make_with(alloc, state, choices, object, word)
}

/// An object is made that lives as long as the program runs, of zeros (C11 6.7.9p10).
pub fn make_static<E: Drop, S: Drop, I: Drop>(
    alloc: Global,
    state: &mut State<E, S, I>,
    choices: &mut Choices,
    object: Object,
) -> Result<Outcome, NoMemory>
    ensures ok { IfOk result (λ outcome. comes_to outcome state.new choices.new ≡ static_made object state.old choices.old) }
    ensures err { OnErr result (choices.new ≡ choices.old) }
{
    match with_block(
        alloc,
        state,
        choices,
        BlockKind::Static,
        object.bytes as u128,
        true,
    )? {
        Err(outcome) => Ok(outcome),
        Ok(block) => {
            let token = object.token;
            state.declare_static(Variable { token, block })?;
            choices.take();
            Ok(Outcome::Went)
        }
    }
}

/// An input of a kind: a number that a value of it may be.
pub fn receive<E: Drop, S: Drop, I: Drop>(
    state: &mut State<E, S, I>,
    choices: &mut Choices,
    kind: Kind,
) -> Result<Outcome, NoMemory>
    ensures ok { IfOk result (λ outcome. comes_to outcome state.new choices.new ≡ received kind state.old choices.old) }
    ensures err { OnErr result ((state.new ≡ state.old) × (choices.new ≡ choices.old)) }
{
    let Some(first) = choices.first() else {
        return Ok(Outcome::Waits);
    };
    let Choice::Input(number) = first else {
        return Ok(Outcome::Ended);
    };
    if !is_input(kind, *number) {
        return Ok(Outcome::Ended);
    }
    state.push(Word::Plain(*number))?;
    choices.take();
    Ok(Outcome::Went)
}
