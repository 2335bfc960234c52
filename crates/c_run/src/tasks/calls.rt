//! Calls (C11 6.5.2.2).
ghost use Rattle.std.specs.Prelude.{◌≡◌, ◌<◌, length, Some, slice_get, IfOk};
ghost use Rattle.cbase.specs.declared.tree.expr.Expr.{Expr};
ghost use Rattle.c_machine.specs.Expressions.{body_call, call_parts, value_parts};
ghost use Rattle.c_machine.specs.Text.{Call};
ghost use Rattle.expressions.specs.Numbers.{Numbering};
ghost use Rattle.c_machine.specs.Program.{Program, FunctionItem as OfProgram, functions_in, number_in};
ghost use Rattle.c_machine.specs.Trees.{body_stands, function_as, text_of};
ghost use Rattle.c_text.specs.Standing.{built_in_by};
ghost use Rattle.c_text.specs.Stands.{StandsFor};
ghost use Rattle.c_run.specs.tasks.Room.{MakesRoom};

use crate::tasks::arguments::arguments;
use crate::tasks::functions::built_in;
use crate::tasks::pushes::unknown;
use crate::tasks::room::Room;
use crate::tasks::state::TreeState;
use c_machine::Task;
use c_text::{Functions, Parameters, Standing, TypedText};
use cbase::{Expr, ExprForm, NoMemory};

/// What is to be done for a call: its arguments from left to right, each converted to its parameter, and then a function that is built in, or the call of
/// one that has a body in the text (C11 6.5.2.2p4, p7).
///
/// It takes one look-up by hash, and time for the arguments.
pub fn called<'a>(
    text: &TypedText,
    functions: &Functions,
    state: &mut TreeState<'a>,
    callee: &'a Expr,
    args: &'a [Expr],
) -> Result<Room, NoMemory>
    ensures { IfOk result (λ room. (n : Numbering) (p : Program) (expr : Expr) → StandsFor n text.now p → functions.now ≡ functions_in p.items
        → MakesRoom (value_parts (text_of p) expr (Call callee.now args.now)) room state.old state.new) }
{
    match &callee.form {
        ExprForm::Name(name) => match text.standing(callee.number) {
            Standing::BuiltIn(signature) => {
                built_in_call(text, state, callee, name.as_slice(), signature, args)
            }
            Standing::Body => named_call(text, functions, state, name.as_slice(), args),
            Standing::Object(_) => unknown(state),
            Standing::Constant(_) => unknown(state),
            Standing::Nothing => unknown(state),
        },
        _ => unknown(state),
    }
}

/// A call of a function that is built in: what it does by its name, behind its arguments.
fn built_in_call<'a>(
    text: &TypedText,
    state: &mut TreeState<'a>,
    callee: &'a Expr,
    name: &[u8],
    signature: u32,
    args: &'a [Expr],
) -> Result<Room, NoMemory>
    requires { signature < length text.now.environment.signatures }
    ensures { IfOk result (λ room. (n : Numbering) (p : Program) → StandsFor n text.now p → MakesRoom (call_parts (text_of p) callee.now args.now (built_in_by n p (Some name.now) (n.signature signature))) room state.old state.new) }
{
    let Some(kind) = text.result_kind(signature) else {
        return Ok(Room::NotKept);
    };
    state.do_first(Task::RunBuiltIn {
        what: built_in(name),
        place: callee.place,
        result: kind,
    })?;
    arguments(text, state, Parameters::OfSignature(signature), args)
}

/// A call of a function that has a body, by its name.
fn named_call<'a>(
    text: &TypedText,
    functions: &Functions,
    state: &mut TreeState<'a>,
    name: &[u8],
    args: &'a [Expr],
) -> Result<Room, NoMemory>
    ensures { IfOk result (λ room. (n : Numbering) (p : Program) (callee : Expr) → StandsFor n text.now p → functions.now ≡ functions_in p.items
        → MakesRoom (call_parts (text_of p) callee args.now (body_stands (number_in functions.now name.now))) room state.old state.new) }
{
    match functions.number(name) {
        None => unknown(state),
        Some(number) => numbered_call(text, functions, state, number, args),
    }
}

/// A call of the function of that number.
fn numbered_call<'a>(
    text: &TypedText,
    functions: &Functions,
    state: &mut TreeState<'a>,
    number: u32,
    args: &'a [Expr],
) -> Result<Room, NoMemory>
    ensures { IfOk result (λ room. (n : Numbering) (p : Program) → StandsFor n text.now p → functions.now ≡ functions_in p.items
        → MakesRoom (body_call (text_of p) args.now number (slice_get (text_of p).functions number)) room state.old state.new) }
{
    match functions.get(number) {
        None => unknown(state),
        Some(function) => defined_call(text, state, function.token(), number, args),
    }
}

/// A call of the function of that number, whose name stands behind so many tokens where it is defined: it is called behind its arguments.
fn defined_call<'a>(
    text: &TypedText,
    state: &mut TreeState<'a>,
    token: u32,
    number: u32,
    args: &'a [Expr],
) -> Result<Room, NoMemory>
    ensures { IfOk result (λ room. (n : Numbering) (p : Program) (function : OfProgram) → StandsFor n text.now p → function.token ≡ token
        → MakesRoom (body_call (text_of p) args.now number (Some (function_as p function))) room state.old state.new) }
{
    state.do_first(Task::CallDefined(number))?;
    arguments(text, state, text.defined_parameters(token), args)
}
