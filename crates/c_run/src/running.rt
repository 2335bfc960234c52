ghost use Rattle.std.specs.Prelude.{◌≡◌, IfOk, OnErr};
ghost use Rattle.c_machine.specs.Program.{Program, functions_in};
ghost use Rattle.c_machine.specs.Trees.{text_of};
ghost use Rattle.expressions.specs.Numbers.{Numbering};
ghost use Rattle.c_text.specs.Stands.{StandsFor};
ghost use Rattle.c_run.specs.Stepped.{IsRun, LeavesChoices};

use crate::stepped::{Stepped, goes_on};
use crate::stepping::step;
use crate::tasks::TreeState;
use c_steps::{Choices, Outcome};
use c_text::{Functions, TypedText};
use cbase::NoMemory;
use std::alloc::Global;

/// At most so many steps of a run, fewer where it is over, waits or cannot go on (C11 5.1.2.3).
///
/// `functions` are those of the program that have a body. `strict` says whether main may not return while an allocated block lives. Where memory is wanting the
/// choices are those that the steps before have left, and nothing is said of the state.
pub fn run<'a>(
    alloc: Global,
    text: &TypedText,
    functions: &Functions<'a>,
    strict: bool,
    state: &mut TreeState<'a>,
    choices: &mut Choices,
    steps: u64,
) -> Result<Stepped, NoMemory>
    ensures ok { IfOk result (λ stepped. (n : Numbering) (p : Program) → StandsFor n text.now p → p.strict ≡ strict → functions.now ≡ functions_in p.items
        → IsRun (text_of p) steps stepped state.old choices.old state.new choices.new) }
    ensures err { OnErr result ((n : Numbering) (p : Program) → StandsFor n text.now p → p.strict ≡ strict → functions.now ≡ functions_in p.items
        → LeavesChoices (text_of p) steps state.old choices.old choices.new) }
{
    let mut left = steps;
    while left > 0 {
        let stepped = step(alloc, text, functions, strict, state, choices)?;
        if !goes_on(stepped) {
            return Ok(stepped);
        }
        left -= 1;
    }
    Ok(Stepped::Came(Outcome::Went))
}
