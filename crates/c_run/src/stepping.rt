ghost use Rattle.std.specs.Prelude.{◌≡◌, IfOk, IfSome, OnErr};
ghost use Rattle.c_machine.specs.Program.{Program, functions_in};
ghost use Rattle.c_machine.specs.Trees.{text_of};
ghost use Rattle.c_steps.specs.PlainStep.{plain_step};
ghost use Rattle.expressions.specs.Numbers.{Numbering};
ghost use Rattle.c_text.specs.Stands.{StandsFor};
ghost use Rattle.c_run.specs.Stepped.{IsStep, IsStepOf};

use crate::calling::call_step;
use crate::conditions::{again_step, branch_step, pick_step, test_step};
use crate::jumps::{break_step, continue_step, return_step};
use crate::stepped::{Stepped, came};
use crate::tasks::TreeState;
use crate::trees::{address_step, initialiser_step, statement_step, value_step};
use c_machine::Task;
use c_steps::{Choices, Outcome, Tree, plain_step};
use c_text::{Functions, TypedText};
use cbase::{Expr, Init, NoMemory, Stmt};
use std::alloc::Global;

/// One step of a run: the first thing to do is taken off a state and done, with the choice that it asks for (C11 5.1.2.3). With nothing to do the run is
/// over.
///
/// `functions` are those of the program that have a body. `strict` says whether main may not return while an allocated block lives. A step takes time for what it
/// puts there or changes, `break`, `continue` and `return` for what is to be done up to the end of the body that they leave, and a look for loss for the bytes of
/// the memory, the objects and the operands. Where memory is wanting no choice is taken, and nothing is said of the state.
pub fn step<'a>(
    alloc: Global,
    text: &TypedText,
    functions: &Functions<'a>,
    strict: bool,
    state: &mut TreeState<'a>,
    choices: &mut Choices,
) -> Result<Stepped, NoMemory>
    ensures ok { IfOk result (λ stepped. (n : Numbering) (p : Program) → StandsFor n text.now p → p.strict ≡ strict → functions.now ≡ functions_in p.items
        → IsStep (text_of p) stepped state.old choices.old state.new choices.new) }
    ensures err { OnErr result (choices.new ≡ choices.old) }
{
    match state.next_task() {
        None => Ok(Stepped::Came(Outcome::Ended)),
        Some(task) => do_task(alloc, text, functions, strict, state, choices, task),
    }
}

/// The step of a thing to do that is taken off those of a state.
fn do_task<'a>(
    alloc: Global,
    text: &TypedText,
    functions: &Functions<'a>,
    strict: bool,
    state: &mut TreeState<'a>,
    choices: &mut Choices,
    task: Task<Tree<'a, Expr>, Tree<'a, Stmt>, Tree<'a, Init>>,
) -> Result<Stepped, NoMemory>
    ensures ok { IfOk result (λ stepped. (n : Numbering) (p : Program) → StandsFor n text.now p → p.strict ≡ strict → functions.now ≡ functions_in p.items
        → IsStepOf (text_of p) task.entry stepped state.old choices.old state.new choices.new) }
    ensures err { OnErr result (choices.new ≡ choices.old) }
{
    match task {
        Task::ValueOf(expr) => value_step(text, functions, state, expr.get()),
        Task::AddressOf(expr) => address_step(text, state, expr.get()),
        Task::Pick { kind, one, other } => pick_step(text, state, kind, one.get(), other.get()),
        Task::Execute(stmt) => statement_step(text, state, stmt.get()),
        Task::Branch(stmt) => branch_step(alloc, state, stmt.get()),
        Task::Test(stmt) => test_step(state, stmt.get()),
        Task::Again { stmt, .. } => again_step(state, stmt.get()),
        Task::Initialise { place, init } => initialiser_step(text, state, place, init.get()),
        Task::BreakAt(word) => break_step(state, word),
        Task::ContinueAt(word) => continue_step(state, word),
        Task::GiveBack { place, kind } => return_step(state, place, kind),
        Task::CallDefined(number) => call_step(alloc, text, functions, state, number),
        other => other_step(alloc, state, choices, strict, other),
    }
}

/// The step of a thing to do that asks no tree and not what else is to be done.
fn other_step<'a>(
    alloc: Global,
    state: &mut TreeState<'a>,
    choices: &mut Choices,
    strict: bool,
    task: Task<Tree<'a, Expr>, Tree<'a, Stmt>, Tree<'a, Init>>,
) -> Result<Stepped, NoMemory>
    ensures ok { IfOk result (λ stepped. (p : Program) → p.strict ≡ strict
        → IfSome (plain_step strict task.entry state.old choices.old) (λ comes. IsStepOf (text_of p) task.entry stepped state.old choices.old state.new choices.new)) }
    ensures err { OnErr result (choices.new ≡ choices.old) }
{
    came(plain_step(alloc, state, choices, strict, task))
}
