ghost use Rattle.std.specs.Prelude.{◌≡◌, ◌≤◌, ◌<◌, [], Some, length, All, IfOk};
ghost use Rattle.cbase.specs.declared.tree.expr.ExprForm.TheViews.{out-Declared};
ghost use Rattle.ctrees.specs.Levels.{declared_levels, param_levels};
ghost use Rattle.typing.specs.Typing.{DeclaredNameIs, ParametersAre, ParameterIs};
ghost use Rattle.expressions.specs.Found.{nothing};
ghost use Rattle.expressions.specs.Nests.{Nests};
ghost use Rattle.expressions.specs.Numbers.{named_at};
ghost use Rattle.expressions.specs.Walked.{Walked, Says, SaysBy};
ghost use Rattle.items.specs.parameters.Parameters.{a_parameter, some_parameters};

use crate::parameters::naming::take_function;
use crate::parameters::parameter::Parameter;
use crate::parameters::taking::take;
use cbase::{Declared, List, NoMemory, Param, Storage};
use expressions::{Checker, Context, Found, NamedType, Part, Told, Within};
use std::alloc::Global;

/// What is found of the name of a function with its parameters, which have a scope of their own (C11 6.2.1p4, 6.7.6.3): what is refused in them, what is
/// broken at the name or at theirs, or the function is declared.
///
/// Want of memory is the only error, and nothing is said of the context then.
pub fn function_name<F: Fn(&mut Context, Within, Part<'_>) -> Result<Found<Told>, NoMemory>>(
    checker: &Checker<F>,
    alloc: Global,
    context: &mut Context,
    storage: Storage,
    base: NamedType,
    name: &Declared,
    params: &List<Param>,
) -> Result<Found<()>, NoMemory>
    requires nests { Nests checker.now.abi checker.now.depth (F.pre checker.now.inner) (F.post checker.now.inner) }
    requires base { base.ctype < length context.old.types }
    requires deep { declared_levels name.now ≤ checker.now.depth }
    requires params { (out-Declared name.now).params ≡ Some params.now }
    ensures { IfOk result (λ found. Walked (SaysBy checker.now.abi (λ n o. DeclaredNameIs storage (named_at n base) name.now o)) nothing context.old context.new found) }
{
    let mut kept = Vec::new(alloc);
    context.enter(alloc)?;
    let walked = parameters(checker, alloc, context, params.as_slice(), &mut kept)?;
    context.leave();
    match walked {
        Found::Passes(()) => take_function(alloc, context, storage, base, name, &kept),
        Found::Refused(fault) => Ok(Found::Refused(fault)),
    }
}

/// What is found of parameters in the scope that stands, one behind the other, each of which is in scope in those behind it (C11 6.2.1p7, 6.7.6.3). They
/// are put into an empty vector.
///
/// Want of memory is the only error, and nothing is said of the context and of the vector then.
pub fn parameters<F: Fn(&mut Context, Within, Part<'_>) -> Result<Found<Told>, NoMemory>>(
    checker: &Checker<F>,
    alloc: Global,
    context: &mut Context,
    params: &[Param],
    kept: &mut Vec<Parameter>,
) -> Result<Found<()>, NoMemory>
    requires nests { Nests checker.now.abi checker.now.depth (F.pre checker.now.inner) (F.post checker.now.inner) }
    requires deep { All (λ param. param_levels param ≤ checker.now.depth) params.now }
    requires empty { kept.old.items ≡ [] }
    ensures { IfOk result (λ told. Walked (Says checker.now.abi (λ o. ParametersAre params.now o)) (some_parameters kept.new.items) context.old context.new told) }
{
    for param in params {
        match one_parameter(checker, alloc, context, param)? {
            Found::Passes(one) => kept.push(one)?,
            Found::Refused(fault) => return Ok(Found::Refused(fault)),
        }
    }
    Ok(Found::Passes(()))
}

/// A parameter: its words and its sizes, behind which it is in scope.
fn one_parameter<F: Fn(&mut Context, Within, Part<'_>) -> Result<Found<Told>, NoMemory>>(
    checker: &Checker<F>,
    alloc: Global,
    context: &mut Context,
    param: &Param,
) -> Result<Found<Parameter>, NoMemory>
    requires nests { Nests checker.now.abi checker.now.depth (F.pre checker.now.inner) (F.post checker.now.inner) }
    requires deep { param_levels param.now ≤ checker.now.depth }
    ensures { IfOk result (λ told. Walked (Says checker.now.abi (λ o. ParameterIs param.now o)) a_parameter context.old context.new told) }
{
    let base = match checker.words(alloc, context, &param.spec)? {
        Found::Passes(base) => base,
        Found::Refused(fault) => return Ok(Found::Refused(fault)),
    };
    let mut sizes = Vec::new(alloc);
    match checker.sizes(context, param.sizes.as_slice(), &mut sizes)? {
        Found::Passes(()) => Ok(Found::Passes(take(alloc, context, param, base, &sizes)?)),
        Found::Refused(fault) => Ok(Found::Refused(fault)),
    }
}
