ghost use Rattle.std.specs.Prelude.{◌<◌, length, IfOk};
ghost use Rattle.cbase.specs.declared.abi.Abi.{Abi};
ghost use Rattle.typing.specs.environment.Bounds.{DeclaredBelow};
ghost use Rattle.expressions.specs.Context.{Agrees};
ghost use Rattle.expressions.specs.Numbers.{Numbering};
ghost use Rattle.items.specs.Objects.{IsObjectGiven, IsObjectJudged, IsObjectOf};

use crate::complete::is_complete_by;
use crate::declarations::{definition_by_now, found_of_name, given_type, is_again, seen_type};
use crate::declaring::declare;
use crate::definitions::{definition_by, is_twice};
use crate::handing::hand_link;
use crate::object::Object;
use cbase::{Declared, NoMemory, Storage};
use expressions::{Context, Found, NamedType, all_at, first_of, unless};
use std::alloc::Global;
use typing::ctypes::Broken;
use typing::environment::DeclaredType;
use typing::{Fault, Size};

/// The name of an object outside of functions, of words, stars and sizes (C11 6.9.2): where nothing is broken at it, it is declared with the type that its
/// visible declarations give, and the declaration is handed on.
///
/// Want of memory is the only error, and nothing is said of the context then.
pub(crate) fn give(
    alloc: Global,
    context: &mut Context,
    storage: Storage,
    base: NamedType,
    name: &Declared,
    sizes: &[Size],
) -> Result<Found<Object>, NoMemory>
    requires { base.ctype < length context.old.types }
    ensures { (abi : Abi) → IfOk result (λ found. IsObjectGiven abi storage base name.now sizes.now context.old context.new found) }
{
    let found = found_of_name(context, base, name.stars, sizes)?;
    let given = given_type(context, base, name.stars, sizes)?;
    let object = object_of(context, storage, name, given);
    if let Some(fault) = object_fault(context, name, object, found) {
        return Ok(Found::Refused(fault));
    }
    declare(alloc, context, name, object)?;
    hand_link(context, name)?;
    Ok(Found::Passes(object))
}

/// What a declaration that gives a name that type says of its object, behind those before it.
fn object_of(context: &Context, storage: Storage, name: &Declared, given: DeclaredType) -> Object
    requires { DeclaredBelow (length context.now.types) given }
    ensures is { IsObjectOf context.now storage name.now given result }
    ensures below { DeclaredBelow (length context.now.types) result.ctype }
{
    let linked = context.linked(name.name.as_slice());
    let visible = context.visible_type(name.name.as_slice());
    Object {
        given,
        ctype: seen_type(visible, given),
        before: definition_by_now(linked),
        adds: definition_by(storage, name.init.is_some()),
    }
}

/// What is broken at the name of an object, of whose type that is found, if anything is: one that is declared with another type, or defined twice, is rule
/// 2, one of an incomplete type rule 3 (C11 6.7p4, p7, 6.9p5).
fn object_fault(
    context: &Context,
    name: &Declared,
    object: Object,
    found: Option<Broken>,
) -> Option<Fault>
    requires given { DeclaredBelow (length context.now.types) object.given }
    requires whole { DeclaredBelow (length context.now.types) object.ctype }
    ensures { (n : Numbering) → Agrees n context.now → IsObjectJudged n context.now name.now object found result }
{
    let place = name.place;
    let other = is_again(context, name.name.as_slice(), Storage::Extern, object.given);
    let twice = is_twice(object.before, object.adds);
    let complete = is_complete_by(context, object.adds, object.ctype);
    let once = unless(!(other | twice), place, Broken::Rule(2));
    let sized = unless(complete, place, Broken::Rule(3));
    first_of(all_at(place, found), first_of(once, sized))
}
