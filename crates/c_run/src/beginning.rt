//! How a run starts (C11 5.1.2).
ghost use Rattle.std.specs.Prelude.{◌≡◌, ◌+◌, ◌*◌, [], Some, IfOk};
ghost use Rattle.expressions.specs.Numbers.{Numbering};
ghost use Rattle.c_machine.specs.Program.{Program, functions_in};
ghost use Rattle.c_machine.specs.Run.{blank};
ghost use Rattle.c_machine.specs.Trees.{function_as, nodes_in, text_of};
ghost use Rattle.c_text.specs.Stands.{StandsFor};
ghost use Rattle.c_run.specs.Started.{Calls, IsStart, IsStartOf};

use crate::finishing::{finish, goes_on};
use crate::starting::{main_tasks, static_tasks};
use crate::stepped::Stepped;
use crate::tasks::{Room, TreeState};
use c_steps::{Choices, Outcome, State};
use c_text::statics::{StaticSets, static_sets};
use c_text::{FunctionItem, Functions, TypedText};
use cbase::{Item, NoMemory};
use choices::Choice;
use std::alloc::Global;

/// What the start of a run comes to, with the state there and the choices that are left.
#[derive(Drop)]
pub struct Started<'a, 'c> {
    /// What it comes to.
    pub stepped: Stepped,
    /// The state, which is of use where the run goes on.
    pub state: TreeState<'a>,
    /// The choices that are not taken yet.
    pub choices: Choices<'c>,
}

/// The start of a run (C11 5.1.2p1): the objects that live as long as it are made and initialised, and main is called, where there is one.
///
/// `functions` are those of the items that have a body. `strict` says whether main may not return while an allocated block lives. Where memory is wanting
/// there is no state, and no choice is taken.
pub fn start<'a, 'c>(
    alloc: Global,
    text: &TypedText,
    functions: &Functions<'a>,
    strict: bool,
    items: &'a [Item],
    choices: &'c [Choice],
) -> Result<Started<'a, 'c>, NoMemory>
    ensures { IfOk result (λ started. (n : Numbering) (p : Program) → StandsFor n text.now p → p.strict ≡ strict → functions.now ≡ functions_in p.items → p.items ≡ items.now
        → IsStart (text_of p) started.stepped choices.now started.state started.choices) }
{
    let mut state = State::blank(alloc);
    let mut left = Choices::of(choices);
    match start_from(alloc, text, functions, strict, items, &mut state, &mut left) {
        Ok(stepped) => Ok(Started {
            stepped,
            state,
            choices: left,
        }),
        Err(error) => Err(error),
    }
}

/// The start of a run in a state in which nothing is made.
pub(crate) fn start_from<'a>(
    alloc: Global,
    text: &TypedText,
    functions: &Functions<'a>,
    strict: bool,
    items: &'a [Item],
    state: &mut TreeState<'a>,
    choices: &mut Choices,
) -> Result<Stepped, NoMemory>
    ensures { IfOk result (λ stepped. (n : Numbering) (p : Program) → StandsFor n text.now p → p.strict ≡ strict → functions.now ≡ functions_in p.items → p.items ≡ items.now → state.old ≡ blank (text_of p) []
        → IsStart (text_of p) stepped choices.old state.new choices.new) }
{
    match functions.main() {
        None => Ok(Stepped::Came(Outcome::Stuck)),
        Some(main) => {
            let found = static_sets(alloc, text, items)?;
            start_main(alloc, text, functions, strict, &found, main, state, choices)
        }
    }
}

/// The start of a run of a program that has a main.
fn start_main<'a>(
    alloc: Global,
    text: &TypedText,
    functions: &Functions<'a>,
    strict: bool,
    found: &StaticSets<'a>,
    main: &FunctionItem<'a>,
    state: &mut TreeState<'a>,
    choices: &mut Choices,
) -> Result<Stepped, NoMemory>
    ensures { IfOk result (λ stepped. (n : Numbering) (p : Program) → StandsFor n text.now p → p.strict ≡ strict → functions.now ≡ functions_in p.items
        → found.now.sets ≡ (text_of p).sets → found.now.nodes ≡ nodes_in p.items → state.old ≡ blank (text_of p) []
        → IsStartOf (text_of p) (Some (function_as p main.now)) stepped choices.old state.new choices.new) }
{
    match static_tasks(alloc, text, state, found.sets.as_slice())? {
        None => Ok(Stepped::NotKept),
        Some(count) => {
            let steps = enough(count, found.nodes)?;
            let stepped = finish(alloc, text, functions, strict, state, choices, steps)?;
            if !goes_on(stepped) {
                return Ok(stepped);
            }
            call_main(alloc, text, state, main)
        }
    }
}

/// In how many steps so many objects are made, and so many parts of initialisers written. Where that would not fit, memory is wanting.
fn enough(count: usize, nodes: u64) -> Result<u64, NoMemory>
    ensures { IfOk result (λ steps. steps ≡ count + 8 * nodes) }
{
    let Some(written) = nodes.checked_mul(8) else {
        return Err(NoMemory);
    };
    match (count as u64).checked_add(written) {
        None => Err(NoMemory),
        Some(steps) => Ok(steps),
    }
}

/// Main is to be called.
fn call_main<'a>(
    alloc: Global,
    text: &TypedText,
    state: &mut TreeState<'a>,
    main: &FunctionItem<'a>,
) -> Result<Stepped, NoMemory>
    ensures { IfOk result (λ stepped. (n : Numbering) (p : Program) → StandsFor n text.now p
        → Calls (text_of p) (function_as p main.now) stepped state.old state.new) }
{
    match main_tasks(alloc, text, state, main)? {
        Room::Made => Ok(Stepped::Came(Outcome::Went)),
        Room::NotKept => Ok(Stepped::NotKept),
    }
}
