//! Calls of functions that the program defines (C11 6.5.2.2).
ghost use Rattle.std.specs.Prelude.{◌≡◌, List as Items, Some, map, true, IfOk};
ghost use Rattle.choices.specs.declared.choice.Choice.{Choice};
ghost use Rattle.expressions.specs.Numbers.{Numbering};
ghost use Rattle.c_machine.specs.declared.task.Task.TheVariants.{CallDefined};
ghost use Rattle.c_machine.specs.Program.{Program, functions_in};
ghost use Rattle.c_machine.specs.Trees.{function_as, text_of};
ghost use Rattle.std.specs.List.{list_all};
ghost use Rattle.c_text.specs.Kept.{is_sized};
ghost use Rattle.c_text.specs.Stands.{StandsFor};
ghost use Rattle.c_run.specs.Stepped.{IsCallOf, IsStepOf};

use crate::bodies::function_tasks;
use crate::stepped::{Stepped, stepped_by};
use crate::tasks::TreeState;
use c_machine::Object;
use c_steps::Outcome;
use c_text::{FunctionItem, Functions, TypedText};
use cbase::NoMemory;
use std::alloc::Global;

/// A function that the program defines is called behind its arguments (C11 6.5.2.2p4, p7).
///
/// It takes two look-ups by hash, a step for each parameter, and time for the outermost block of the body.
pub(crate) fn call_step<'a>(
    alloc: Global,
    text: &TypedText,
    functions: &Functions<'a>,
    state: &mut TreeState<'a>,
    number: u32,
) -> Result<Stepped, NoMemory>
    ensures { IfOk result (λ stepped. (n : Numbering) (p : Program) (choices : Items Choice) → StandsFor n text.now p → functions.now ≡ functions_in p.items
        → IsStepOf (text_of p) (CallDefined number) stepped state.old choices state.new choices) }
{
    match functions.get(number) {
        None => Ok(Stepped::Came(Outcome::Stuck)),
        Some(function) => call(alloc, text, state, function),
    }
}

/// This function is called.
fn call<'a>(
    alloc: Global,
    text: &TypedText,
    state: &mut TreeState<'a>,
    function: &FunctionItem<'a>,
) -> Result<Stepped, NoMemory>
    ensures { IfOk result (λ stepped. (n : Numbering) (p : Program) (choices : Items Choice) → StandsFor n text.now p
        → IsCallOf (text_of p) (Some (function_as p function.now)) stepped state.old choices state.new choices) }
{
    match text.parameter_objects(alloc, function.token())? {
        None => Ok(Stepped::NotKept),
        Some(params) => call_with(alloc, text, state, params.as_slice(), function),
    }
}

/// It is called with these objects of its parameters.
fn call_with<'a>(
    alloc: Global,
    text: &TypedText,
    state: &mut TreeState<'a>,
    params: &[Object],
    function: &FunctionItem<'a>,
) -> Result<Stepped, NoMemory>
    ensures { IfOk result (λ stepped. (n : Numbering) (p : Program) (choices : Items Choice) → StandsFor n text.now p → list_all is_sized params.now ≡ true
        → params.now ≡ map (λ param. param.object) (function_as p function.now).params
        → IsCallOf (text_of p) (Some (function_as p function.now)) stepped state.old choices state.new choices) }
{
    let held = state.held().saturating_sub(params.len());
    state.call(alloc, params.len())?;
    stepped_by(function_tasks(text, state, params, function, held))
}
