//! Runs of programs from their start, with given choices (C11 5.1.2).
ghost use Rattle.std.specs.Prelude.{◌≡◌, [], IfOk, List as Items, Ok};
ghost use Rattle.choices.specs.declared.choice.Choice.{Choice};
ghost use Rattle.c_machine.specs.Program.{Program, functions_in};
ghost use Rattle.c_machine.specs.Run.{blank, run_of};
ghost use Rattle.c_machine.specs.State.{StateIn};
ghost use Rattle.c_machine.specs.Trees.{text_of};
ghost use Rattle.c_run.specs.declared.stepped.Stepped.TheVariants.{Came};
ghost use Rattle.c_steps.specs.declared.outcome.Outcome.{Outcome as Answer};
ghost use Rattle.c_steps.specs.ComesTo.{comes_to};
ghost use Rattle.c_text.specs.Stands.{StandsFor};
ghost use Rattle.expressions.specs.Numbers.{Numbering};

use crate::beginning::start_from;
use crate::finishing::goes_on;
use crate::running::run;
use crate::stepped::Stepped;
use crate::tasks::TreeState;
use c_steps::{Choices, Outcome, State};
use c_text::{Functions, TypedText};
use cbase::{Item, NoMemory};
use choices::Choice;
use std::alloc::Global;

/// What a run of the program of these items comes to within so many steps from its start, with these choices. It is `Went` where the run still goes on.
///
/// It is that run of the machine for each program that the text stands for. `strict` says whether main may not return while an allocated block lives. Where a
/// step speaks of a type that is not kept, as `c_text::type_kind` says, the answer is want of memory: that a program which passes the check has none such is
/// not proved.
pub fn run_program(
    alloc: Global,
    items: &[Item],
    text: &TypedText,
    strict: bool,
    choices: &[Choice],
    steps: u32,
) -> Result<Outcome, NoMemory>
    ensures { IfOk result (λ outcome. (n : Numbering) (p : Program) → StandsFor n text.now p → p.items ≡ items.now → p.strict ≡ strict
        → (state : StateIn (text_of p)) × (rest : Items Choice) × (run_of (text_of p) choices.now steps ≡ comes_to outcome state rest)) }
{
    let functions = Functions::of(alloc, items)?;
    let mut state = State::blank(alloc);
    let came = run_from(
        alloc, items, text, &functions, strict, &mut state, choices, steps,
    );
    kept(came)
}

/// A run in a state in which nothing is made.
fn run_from<'a>(
    alloc: Global,
    items: &'a [Item],
    text: &TypedText,
    functions: &Functions<'a>,
    strict: bool,
    state: &mut TreeState<'a>,
    choices: &[Choice],
    steps: u32,
) -> Result<Stepped, NoMemory>
    ensures { IfOk result (λ stepped. (n : Numbering) (p : Program) → StandsFor n text.now p → p.items ≡ items.now → p.strict ≡ strict → functions.now ≡ functions_in p.items → state.old ≡ blank (text_of p) []
        → (outcome : Answer) → stepped ≡ Came outcome → (rest : Items Choice) × (run_of (text_of p) choices.now steps ≡ comes_to outcome state.new rest)) }
{
    let mut left = Choices::of(choices);
    let stepped = start_from(alloc, text, functions, strict, items, state, &mut left)?;
    if !goes_on(stepped) {
        return Ok(stepped);
    }
    run(
        alloc,
        text,
        functions,
        strict,
        state,
        &mut left,
        u64::from(steps),
    )
}

/// What a step or a run came to. Where it speaks of a type that is not kept, memory is wanting.
fn kept(came: Result<Stepped, NoMemory>) -> Result<Outcome, NoMemory>
    ensures { IfOk result (λ outcome. came ≡ Ok (Came outcome)) }
{
    match came {
        Ok(Stepped::Came(outcome)) => Ok(outcome),
        Ok(Stepped::NotKept) => Err(NoMemory),
        Err(error) => Err(error),
    }
}
