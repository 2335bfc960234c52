ghost use Rattle.std.specs.Prelude.{◌≡◌, ◌<◌, length, All, OnOk};
ghost use Rattle.typing.specs.Heads.{names_of};
ghost use Rattle.items.specs.Heads.{marked, marked_if_main, marked_one};

use crate::heads::main_function::is_main;
use crate::heads::pairs::pairs;
use crate::heads::walking::params_of;
use crate::parameters::Parameter;
use cbase::{Declared, Identifier, NoMemory, Param};
use expressions::Context;
use std::alloc::Global;
use typing::environment::{DeclaredType, Entity, Lifetime};

/// Declares the parameters of `main` anew as such, in the innermost scope; those of any other function stay as they are.
///
/// Want of memory is the only error, and nothing is said of the context then.
pub(crate) fn mark_parameters(
    alloc: Global,
    context: &mut Context,
    name: &Declared,
    params: &[Parameter],
) -> Result<(), NoMemory>
    requires { All (λ param. param.ctype < length context.old.types) params.now }
    ensures { OnOk result (context.new ≡ marked_if_main name.now params.now context.old) }
{
    if is_main(name.name.as_slice()) {
        mark_each(alloc, context, params_of(name), params)
    } else {
        Ok(())
    }
}

/// Declares parameters anew as those of `main`, each by the name that it is declared with and the type that is kept of it, one behind the other.
fn mark_each(
    alloc: Global,
    context: &mut Context,
    declared: &[Param],
    params: &[Parameter],
) -> Result<(), NoMemory>
    requires { All (λ param. param.ctype < length context.old.types) params.now }
    ensures { OnOk result (context.new ≡ marked (names_of declared.now) params.now context.old) }
{
    for at in 0..pairs(declared.len(), params.len()) {
        mark(alloc, context, &declared[at].name, params[at].ctype)?;
    }
    Ok(())
}

/// Declares a parameter of `main` of the type of that number, where it has a name: an object that the body of `main` may not name.
fn mark(
    alloc: Global,
    context: &mut Context,
    name: &Option<Identifier>,
    ctype: u32,
) -> Result<(), NoMemory>
    requires { ctype < length context.old.types }
    ensures { OnOk result (context.new ≡ marked_one name.now ctype context.old) }
{
    match name {
        None => Ok(()),
        Some(name) => context.declare(
            alloc,
            name.name.as_slice(),
            Entity::Object {
                ctype: DeclaredType::Whole(ctype),
                token: name.place.at,
                lifetime: Lifetime::MainParameter,
                defined: true,
            },
        ),
    }
}
