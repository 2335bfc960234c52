ghost use Rattle.std.specs.Prelude.{◌≡◌, ◌<◌, length, IfOk};
ghost use Rattle.cbase.specs.declared.abi.Abi.{Abi};
ghost use Rattle.cbase.specs.declared.ctype.CType.{CType as TypeTree};
ghost use Rattle.cbase.specs.declared.ctype.CType.TheVariants.{Array};
ghost use Rattle.expressions.specs.Context.{Agrees};
ghost use Rattle.expressions.specs.Numbers.{Numbering};
ghost use Rattle.items.specs.Objects.{IsArrayAsked, IsArrayTold};

use crate::declarations::{declare_name, is_other, told_fault};
use crate::handing::hand_static;
use cbase::{Declared, NoMemory, Storage};
use expressions::{Context, Found, first_of, unless};
use std::alloc::Global;
use typing::Fault;
use typing::ctypes::Broken;
use typing::environment::DeclaredType;

/// An array outside of functions whose size its initialiser tells (C11 6.7.9p22), of that type of so many items, behind its initialiser: where nothing is
/// broken at its name, it is declared with its size, and handed on where it is `listed`.
///
/// Want of memory is the only error, and nothing is said of the context then.
pub(crate) fn tell_size(
    alloc: Global,
    context: &mut Context,
    name: &Declared,
    listed: bool,
    ctype: u32,
    count: u64,
) -> Result<Found<()>, NoMemory>
    requires { ctype < length context.old.types }
    ensures { (abi : Abi) → IfOk result (λ found. IsArrayTold abi name.now listed ctype count context.old context.new found) }
{
    if let Some(fault) = array_fault(context, name, ctype, count) {
        return Ok(Found::Refused(fault));
    }
    let whole = DeclaredType::Whole(ctype);
    let token = name.place.at;
    declare_name(
        alloc,
        context,
        name.name.as_slice(),
        token,
        Storage::Extern,
        whole,
    )?;
    hand_static(context, listed, name.place, whole, true)?;
    Ok(Found::Passes(()))
}

/// What is broken at the name of such an array: one of no items is rule 9, one of more than 65,536 bytes construct 19, and one that its initialiser itself
/// declares with another size rule 2.
fn array_fault(context: &Context, name: &Declared, ctype: u32, count: u64) -> Option<Fault>
    requires { ctype < length context.now.types }
    ensures { (abi : Abi) (n : Numbering) (item : TypeTree) → Agrees n context.now → n.ctype ctype ≡ Array item count → IsArrayAsked abi name.now count item n context.now result }
{
    let place = name.place;
    let whole = DeclaredType::Whole(ctype);
    let other = is_other(context, context.linked(name.name.as_slice()), whole);
    let once = unless(!other, place, Broken::Rule(2));
    first_of(told_fault(context, place, ctype, count), once)
}
