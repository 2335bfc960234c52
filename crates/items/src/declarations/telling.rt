ghost use Rattle.std.specs.Prelude.{◌≡◌, ◌<◌, length, IfOk};
ghost use Rattle.cbase.specs.declared.abi.Abi.{Abi};
ghost use Rattle.cbase.specs.declared.ctype.CType.{CType as TypeTree};
ghost use Rattle.cbase.specs.declared.ctype.CType.TheVariants.{Array};
ghost use Rattle.expressions.specs.Context.{Agrees};
ghost use Rattle.expressions.specs.Numbers.{Numbering};
ghost use Rattle.expressions.specs.Settled.{IsFirstOf};
ghost use Rattle.typing.specs.Declarations.{told_faults};
ghost use Rattle.items.specs.declarations.Given.{IsSizeTold};

use crate::declarations::declaring::declare_object;
use crate::declarations::handing::hand_object;
use cbase::{Declared, NoMemory, Place};
use expressions::{Context, Found, first_of, unless};
use std::alloc::Global;
use typing::Fault;
use typing::ctypes::Broken;
use typing::environment::DeclaredType;

/// An array whose size its initialiser tells (C11 6.7.9p22), of that type of so many items, behind its initialiser: where nothing is broken at its
/// name, it is declared with its size, and handed on.
///
/// Want of memory is the only error, and nothing is said of the context then.
pub(crate) fn tell_size(
    alloc: Global,
    context: &mut Context,
    name: &Declared,
    fixed: bool,
    ctype: u32,
    count: u64,
) -> Result<Found<()>, NoMemory>
    requires { ctype < length context.old.types }
    ensures { (abi : Abi) → IfOk result (λ found. IsSizeTold abi name.now fixed ctype count context.old context.new found) }
{
    if let Some(fault) = told_fault(context, name.place, ctype, count) {
        return Ok(Found::Refused(fault));
    }
    let whole = DeclaredType::Whole(ctype);
    let token = name.place.at;
    declare_object(alloc, context, name.name.as_slice(), token, fixed, whole)?;
    hand_object(context, name.place, fixed, ctype, true)?;
    Ok(Found::Passes(()))
}

/// What is broken at the name of such an array: one of no items is rule 9, and one of more than 65,536 bytes construct 19.
pub fn told_fault(context: &Context, place: Place, ctype: u32, count: u64) -> Option<Fault>
    requires { ctype < length context.now.types }
    ensures { (n : Numbering) (abi : Abi) (item : TypeTree) → Agrees n context.now → n.ctype ctype ≡ Array item count → IsFirstOf (told_faults abi context.now.structs place item count) result }
{
    let large = unless(!context.is_large(ctype), place, Broken::Construct(19));
    let some = unless(count != 0, place, Broken::Rule(9));
    first_of(large, some)
}
