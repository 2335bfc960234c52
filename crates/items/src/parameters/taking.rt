ghost use Rattle.std.specs.Prelude.{◌≡◌, ◌<◌, ℕ, length, is_some, option_map, IfOk, OnOk, if◌then◌else◌, None, Some};
ghost use Rattle.cbase.specs.declared.abi.Abi.{Abi};
ghost use Rattle.typing.specs.declared.ctypes.found.Broken.TheVariants.{Rule};
ghost use Rattle.typing.specs.ctypes.Kinds.{kind_of};
ghost use Rattle.typing.specs.environment.Scopes.{found_here};
ghost use Rattle.typing.specs.Declarations.{found_in_sizes, found_of_name, if_incomplete, if_large, parameter_found};
ghost use Rattle.typing.specs.Statements.{is_void};
ghost use Rattle.expressions.specs.Context.{Agrees};
ghost use Rattle.expressions.specs.Numbers.{Numbering, named_at};
ghost use Rattle.items.specs.parameters.Taken.{behind_first, is_here, object_named, place_in, IsParameter, IsTaken};

use crate::parameters::parameter::Parameter;
use cbase::{Identifier, NoMemory, Param, Place};
use expressions::{Context, NamedType, arrays_of, found_of_sizes, least, pointers_to};
use std::alloc::Global;
use typing::Size;
use typing::ctypes::{Broken, Shape};
use typing::environment::{DeclaredType, Entity, Lifetime};

/// A parameter of that type and of those sizes, which is in scope behind it where it has a name (C11 6.2.1p7).
///
/// Want of memory is the only error, and nothing is said of the context then.
pub(crate) fn take(
    alloc: Global,
    context: &mut Context,
    param: &Param,
    base: NamedType,
    sizes: &[Size],
) -> Result<Parameter, NoMemory>
    requires { base.ctype < length context.old.types }
    ensures { (abi : Abi) → IfOk result (λ told. IsTaken abi param.now base sizes.now context.old context.new told) }
{
    let told = parameter_of(context, param, base, sizes)?;
    declare(alloc, context, &param.name, told.ctype)?;
    Ok(told)
}

/// What its function asks of a parameter of that type and of those sizes.
fn parameter_of(
    context: &mut Context,
    param: &Param,
    base: NamedType,
    sizes: &[Size],
) -> Result<Parameter, NoMemory>
    requires { base.ctype < length context.old.types }
    ensures { (abi : Abi) → IfOk result (λ told. IsParameter abi param.now base sizes.now context.old context.new told) }
{
    let pointer = pointers_to(context, base.ctype, param.stars)?;
    let asked = arrays_of(context, pointer, inner(sizes))?;
    let whole = arrays_of(context, pointer, sizes)?;
    let value = context.value_type(whole)?;
    let incomplete = is_void(context, whole);
    let found = found_of_name(base, sizes, context.is_large(asked));
    Ok(Parameter {
        ctype: value,
        found: found_at_function(&param.name, found, incomplete),
        place: place_of(&param.name),
        again: is_declared(context, &param.name),
        incomplete,
    })
}

/// Declares a parameter of the type of that number in the innermost scope, where it has a name: an object that lives as long as its block runs.
fn declare(
    alloc: Global,
    context: &mut Context,
    name: &Option<Identifier>,
    ctype: u32,
) -> Result<(), NoMemory>
    requires { ctype < length context.old.types }
    ensures { OnOk result (context.new ≡ object_named name.now ctype context.old) }
{
    match name {
        None => Ok(()),
        Some(name) => context.declare(
            alloc,
            name.name.as_slice(),
            Entity::Object {
                ctype: DeclaredType::Whole(ctype),
                token: name.place.at,
                lifetime: Lifetime::Automatic,
                defined: true,
            },
        ),
    }
}

/// Whether the innermost scope declares the name of a parameter; one without a name has none.
fn is_declared(context: &Context, name: &Option<Identifier>) -> bool
    ensures { result ≡ is_here name.now context.now.environment }
{
    match name {
        None => false,
        Some(name) => context.is_declared_here(name.name.as_slice()),
    }
}

/// Where the name of a parameter stands.
fn place_of(name: &Option<Identifier>) -> Option<Place>
    ensures { result ≡ place_in name.now }
{
    match name {
        None => None,
        Some(name) => Some(name.place),
    }
}

/// The sizes behind the outermost one.
fn inner(sizes: &[Size]) -> &[Size]
    ensures { result.now ≡ behind_first sizes.now }
{
    if sizes.is_empty() {
        return sizes;
    }
    &sizes[1..]
}

/// Whether the type of that number is `void`.
fn is_void(context: &Context, number: u32) -> bool
    requires { number < length context.now.types }
    ensures { (n : Numbering) → Agrees n context.now → result ≡ is_void (kind_of context.now.structs (n.ctype number)) }
{
    match context.shape(number) {
        Shape::Void => true,
        _ => false,
    }
}

/// The least of what is found of a name in a declaration: of the words, of the sizes, of which the outermost may be left out, and whether it is large.
pub fn found_of_name(base: NamedType, sizes: &[Size], large: bool) -> Option<Broken>
    ensures { (n : Numbering) → result ≡ found_of_name (named_at n base) sizes.now large }
{
    least(
        base.found,
        least(found_in_sizes(sizes), found_if_large(large)),
    )
}

/// What is found of the sizes, of which the outermost may be left out (C11 6.7.6.2p4, 6.7.6.3p7).
fn found_in_sizes(sizes: &[Size]) -> Option<Broken>
    ensures { result ≡ found_in_sizes sizes.now }
{
    if let Some(Size::LeftOut) = sizes.first() {
        return found_of_sizes(inner(sizes));
    }
    found_of_sizes(sizes)
}

/// A type of more than 65,536 bytes is construct 19.
fn found_if_large(large: bool) -> Option<Broken>
    ensures { result ≡ if_large large }
{
    if large {
        Some(Broken::Construct(19))
    } else {
        None
    }
}

/// What is found of a parameter at the name of its function: one of type `void` is rule 3 there where it has no name.
fn found_at_function(
    name: &Option<Identifier>,
    found: Option<Broken>,
    incomplete: bool,
) -> Option<Broken>
    ensures { result ≡ parameter_found name.now found incomplete }
{
    match name {
        None => least(found, found_if_incomplete(incomplete)),
        Some(_) => found,
    }
}

/// An incomplete type is rule 3.
fn found_if_incomplete(incomplete: bool) -> Option<Broken>
    ensures { result ≡ if_incomplete incomplete }
{
    if incomplete {
        Some(Broken::Rule(3))
    } else {
        None
    }
}
