//! Steps until nothing is left to do.
ghost use Rattle.std.specs.Prelude.{◌≡◌, ◌↔◌, [], true, IfOk, IsTrue};
ghost use Rattle.expressions.specs.Numbers.{Numbering};
ghost use Rattle.c_machine.specs.Program.{Program, functions_in};
ghost use Rattle.c_machine.specs.Trees.{text_of};
ghost use Rattle.c_text.specs.Stands.{StandsFor};
ghost use Rattle.c_run.specs.Started.{IsDone};
ghost use Rattle.c_run.specs.Stepped.{goes_on};

use crate::stepped::Stepped;
use crate::stepping::step;
use crate::tasks::TreeState;
use c_steps::{Choices, Outcome};
use c_text::{Functions, TypedText};
use cbase::NoMemory;
use std::alloc::Global;

/// Whether a run goes on behind a step.
pub(crate) fn goes_on(stepped: Stepped) -> bool
    ensures { result ≡ goes_on stepped }
{
    match stepped {
        Stepped::Came(Outcome::Went) => true,
        _ => false,
    }
}

/// Whether nothing is to be done.
fn is_done(state: &TreeState) -> bool
    ensures { IsTrue result ↔ (state.now.tasks ≡ []) }
{
    state.is_done()
}

/// At most so many steps, until nothing is left to do. Where something is left then, the run comes nowhere.
pub fn finish<'a>(
    alloc: Global,
    text: &TypedText,
    functions: &Functions<'a>,
    strict: bool,
    state: &mut TreeState<'a>,
    choices: &mut Choices,
    steps: u64,
) -> Result<Stepped, NoMemory>
    ensures done { IfOk result (λ stepped. (n : Numbering) (p : Program) → StandsFor n text.now p → p.strict ≡ strict → functions.now ≡ functions_in p.items
        → IsDone (text_of p) steps stepped state.old choices.old state.new choices.new) }
    ensures nothing { IfOk result (λ stepped. goes_on stepped ≡ true → state.new.tasks ≡ []) }
{
    let mut left = steps;
    'turns: while !is_done(state) {
        if left == 0 {
            return Ok(Stepped::Came(Outcome::Stuck));
        }
        let stepped = step(alloc, text, functions, strict, state, choices)?;
        if !goes_on(stepped) {
            return Ok(stepped);
        }
        left -= 1;
    }
    Ok(Stepped::Came(Outcome::Went))
}
