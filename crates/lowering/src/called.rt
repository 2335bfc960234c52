//! What a call calls (C11 6.5.2.2).
ghost use Rattle.std.specs.Prelude.{◌≡◌, ◌<◌, not, ◌&&◌, nat_eq, length, IfOk};
ghost use Rattle.c_text.specs.Parameters.{AreParameters};
ghost use Rattle.lowering.specs.Calls.{AreParameterKinds, IsBuiltInCalled, IsBodyCalled, IsNumberedCalled, IsDefinedCalled, IsCalled, are_sized_as};
ghost use Rattle.lowering.specs.Kinds.{is_void, width};

use crate::built_in::built_in;
use crate::kinds::{is_void, width};
use crate::source::Source;
use c_machine::{BuiltIn, Kind, Object};
use c_text::{FunctionItem, Parameters, Standing};
use cbase::{Expr, ExprForm, List, NoMemory};

/// What a call calls.
#[derive(Drop)]
pub enum Called {
    /// A function that is built in.
    BuiltIn {
        /// What it does.
        what: BuiltIn,
        /// The kinds of its parameters.
        params: List<Kind>,
        /// The kind of its result.
        made: Kind,
    },
    /// A function that has a body in the text.
    Body {
        /// Its number.
        number: u32,
        /// The kinds of its parameters.
        params: List<Kind>,
        /// Whether each argument has a value, and the size of its parameter.
        sized: bool,
        /// The kind of its result.
        made: Kind,
    },
    /// Nothing that can be called.
    Nothing,
}

/// What the call of an expression calls. It takes one look-up by hash, and time and memory for the parameters.
pub fn called_by(source: &Source, callee: &Expr) -> Result<Called, NoMemory>
    ensures { IfOk result (λ called. IsCalled source.now callee.now called) }
{
    match &callee.form {
        ExprForm::Name(name) => match source.text().standing(callee.number) {
            Standing::BuiltIn(signature) => built_in_called(source, name.as_slice(), signature),
            Standing::Body => body_called(source, name.as_slice()),
            Standing::Object(_) => Ok(Called::Nothing),
            Standing::Constant(_) => Ok(Called::Nothing),
            Standing::Nothing => Ok(Called::Nothing),
        },
        _ => Ok(Called::Nothing),
    }
}

/// The kinds of parameters.
fn parameter_kinds(source: &Source, params: Parameters) -> Result<List<Kind>, NoMemory>
    requires { AreParameters source.now.context params }
    ensures { IfOk result (λ kinds. AreParameterKinds source.now.context params kinds) }
{
    let mut kinds = List::new(source.alloc());
    let count = source.text().parameter_count(params);
    let mut at = 0;
    while at < count {
        match source.text().parameter_kind(params, at) {
            None => return Err(NoMemory),
            Some(kind) => kinds.push(kind)?,
        }
        at += 1;
    }
    Ok(kinds)
}

/// A call of a function that is built in.
fn built_in_called(source: &Source, name: &[u8], signature: u32) -> Result<Called, NoMemory>
    requires { signature < length source.now.context.environment.signatures }
    ensures { IfOk result (λ called. IsBuiltInCalled source.now.context name.now signature called) }
{
    let Some(made) = source.text().result_kind(signature) else {
        return Err(NoMemory);
    };
    let params = parameter_kinds(source, Parameters::OfSignature(signature))?;
    Ok(Called::BuiltIn {
        what: built_in(name),
        params,
        made,
    })
}

/// A call of a function that has a body, by its name.
fn body_called(source: &Source, name: &[u8]) -> Result<Called, NoMemory>
    ensures { IfOk result (λ called. IsBodyCalled source.now name.now called) }
{
    match source.functions().number(name) {
        None => Ok(Called::Nothing),
        Some(number) => numbered_called(source, number),
    }
}

/// A call of the function of that number.
fn numbered_called(source: &Source, number: u32) -> Result<Called, NoMemory>
    ensures { IfOk result (λ called. IsNumberedCalled source.now number called) }
{
    match source.functions().get(number) {
        None => Ok(Called::Nothing),
        Some(function) => defined_called(source, number, function.token()),
    }
}

/// A call of the function of that number, whose name stands behind so many tokens where it is defined.
fn defined_called(source: &Source, number: u32, token: u32) -> Result<Called, NoMemory>
    ensures { IfOk result (λ called. IsDefinedCalled source.now.context number token called) }
{
    let text = source.text();
    let Some(made) = text.defined_result(token) else {
        return Err(NoMemory);
    };
    let params = parameter_kinds(source, text.defined_parameters(token))?;
    match text.parameter_objects(source.alloc(), token)? {
        None => Err(NoMemory),
        Some(objects) => {
            let sized = are_sized(params.as_slice(), objects.as_slice());
            Ok(Called::Body {
                number,
                params,
                sized,
                made,
            })
        }
    }
}

/// Whether each parameter of these kinds has a value, and its object the size of that.
fn are_sized(kinds: &[Kind], objects: &[Object]) -> bool
    ensures { result ≡ are_sized_as kinds.now objects.now }
{
    let count = kinds.len().min(objects.len());
    let mut at = 0;
    while at < count {
        if !is_sized(&kinds[at], objects[at]) {
            return false;
        }
        at += 1;
    }
    true
}

/// Whether a parameter of a kind has a value, and its object the size of that.
fn is_sized(kind: &Kind, object: Object) -> bool
    ensures { result ≡ (not (is_void kind.now) && nat_eq (width kind.now) object.bytes) }
{
    !is_void(*kind) && u64::from(width(*kind)) == object.bytes
}
