ghost use Rattle.std.specs.Prelude.{◌<◌, length, IfOk};
ghost use Rattle.cbase.specs.declared.abi.Abi.{Abi};
ghost use Rattle.typing.specs.environment.Bounds.{DeclaredBelow};
ghost use Rattle.expressions.specs.Context.{Agrees};
ghost use Rattle.expressions.specs.Numbers.{Numbering};
ghost use Rattle.items.specs.declarations.Given.{IsJudged, IsNameGiven};

use crate::declarations::again::is_again;
use crate::declarations::complete::is_complete;
use crate::declarations::declaring::declare_name;
use crate::declarations::types::{found_of_name, given_type};
use cbase::{Declared, NoMemory, Storage};
use expressions::{Context, Found, NamedType, all_at, first_of, unless};
use std::alloc::Global;
use typing::ctypes::Broken;
use typing::environment::DeclaredType;
use typing::{Fault, Size};

/// The name of an object or of a typedef, of words, stars and sizes (C11 6.7.6): where nothing is broken at it, it is declared.
///
/// Want of memory is the only error, and nothing is said of the context then.
pub(crate) fn give(
    alloc: Global,
    context: &mut Context,
    storage: Storage,
    base: NamedType,
    name: &Declared,
    sizes: &[Size],
) -> Result<Found<DeclaredType>, NoMemory>
    requires { base.ctype < length context.old.types }
    ensures { (abi : Abi) → IfOk result (λ found. IsNameGiven abi storage base name.now sizes.now context.old context.new found) }
{
    let found = found_of_name(context, base, name.stars, sizes)?;
    let ctype = given_type(context, base, name.stars, sizes)?;
    if let Some(fault) = name_fault(context, name, storage, ctype, found) {
        return Ok(Found::Refused(fault));
    }
    let token = name.place.at;
    declare_name(alloc, context, name.name.as_slice(), token, storage, ctype)?;
    Ok(Found::Passes(ctype))
}

/// What is broken at a name of that type, of which that is found, if anything is: one that is declared twice is rule 2, an object of an incomplete
/// type rule 3 (C11 6.7p3, p4, p7).
fn name_fault(
    context: &Context,
    name: &Declared,
    storage: Storage,
    ctype: DeclaredType,
    found: Option<Broken>,
) -> Option<Fault>
    requires { DeclaredBelow (length context.now.types) ctype }
    ensures { (n : Numbering) → Agrees n context.now → IsJudged n context.now storage name.now ctype found result }
{
    let place = name.place;
    let again = is_again(context, name.name.as_slice(), storage, ctype);
    let complete = is_complete(context, name.init.is_some(), storage, ctype);
    let twice = unless(!again, place, Broken::Rule(2));
    let sized = unless(complete, place, Broken::Rule(3));
    first_of(all_at(place, found), first_of(twice, sized))
}
