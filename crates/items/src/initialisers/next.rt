ghost use Rattle.std.specs.Prelude.{◌≡◌, ◌<◌, ◌*◌, ◌+◌, ℕ, true, List, length, slice_get, option_map, IfOk};
ghost use Rattle.cbase.specs.declared.structs.StructDef.{StructDef};
ghost use Rattle.cbase.specs.Offset.{fields_of};
ghost use Rattle.typing.specs.Initialisers.{member_slot, slot_at, at_index, designated, next_in, ended};
ghost use Rattle.expressions.specs.Numbers.{Numbering};
ghost use Rattle.items.specs.initialisers.Filled.{filled_at, IsKept, IsSlot, IsNext, outcome_of};

use crate::initialisers::filled::Filled;
use cbase::{Identifier, NoMemory, Place};
use expressions::{Context, Found, Slot};
use typing::Fault;
use typing::ctypes::Broken;

/// How many bytes an object may have.
const MOST_BYTES: u32 = 65_536;

/// What a part in braces sets.
#[derive(Clone, Copy)]
pub(crate) enum Next {
    /// What stands at an index.
    Sets(u64, Slot),
    /// Nothing: its designator, at that place, names no member.
    NoMember(Place),
    /// Nothing: no place is left.
    Full,
}

/// What the next part sets: the member that its designator names, or what stands at an index (C11 6.7.9p7, p17).
///
/// An offset of 2^64 or more, and that of a member behind more than 65,536 bytes, which no object has, are answered as want of memory, by each call here.
pub(crate) fn next_in(
    context: &Context,
    filled: Filled,
    index: u64,
    member: &Option<Identifier>,
) -> Result<Next, NoMemory>
    requires { IsKept (length context.now.types) context.now.structs filled }
    ensures { IfOk result (λ next. IsNext context.now (λ n abi. next_in abi context.now.structs (filled_at n context.now.structs filled) index member.now) next) }
{
    match member {
        None => at_index(context, filled, index),
        Some(name) => designated(context, filled, name),
    }
}

/// The member that a designator names.
fn designated(context: &Context, filled: Filled, name: &Identifier) -> Result<Next, NoMemory>
    requires { IsKept (length context.now.types) context.now.structs filled }
    ensures { IfOk result (λ next. IsNext context.now (λ n abi. designated abi context.now.structs (filled_at n context.now.structs filled) name.now) next) }
{
    match filled {
        Filled::Members { of, .. } => match context.member_named(of, name.name.as_slice()) {
            Some(at) => at_index(context, filled, u64::from(at.index)),
            None => Ok(Next::NoMember(name.place)),
        },
        Filled::One(_) => Ok(Next::NoMember(name.place)),
        Filled::Nothing(_) => Ok(Next::NoMember(name.place)),
        Filled::Items { .. } => Ok(Next::NoMember(name.place)),
    }
}

/// What stands at an index.
fn at_index(context: &Context, filled: Filled, index: u64) -> Result<Next, NoMemory>
    requires { IsKept (length context.now.types) context.now.structs filled }
    ensures { IfOk result (λ next. IsNext context.now (λ n abi. at_index index (slot_at abi context.now.structs (filled_at n context.now.structs filled) index)) next) }
{
    match slot_at(context, filled, index)? {
        Some(slot) => Ok(Next::Sets(index, slot)),
        None => Ok(Next::Full),
    }
}

/// The part of the object that stands at an index, where there is one.
fn slot_at(context: &Context, filled: Filled, index: u64) -> Result<Option<Slot>, NoMemory>
    requires { IsKept (length context.now.types) context.now.structs filled }
    ensures { IfOk result (λ slot. IsSlot context.now (λ n abi. slot_at abi context.now.structs (filled_at n context.now.structs filled) index) slot) }
{
    match filled {
        Filled::One(slot) => {
            if index != 0 {
                return Ok(None);
            }
            Ok(Some(slot))
        }
        Filled::Nothing(_) => Ok(None),
        Filled::Members { offset, of } => member_slot(context, offset, of, index),
        Filled::Items {
            offset,
            item,
            count,
            bytes,
        } => {
            if index >= count {
                return Ok(None);
            }
            Ok(Some(item_slot(offset, item, bytes, index)?))
        }
    }
}

/// The member of an index of the struct of that number.
fn member_slot(
    context: &Context,
    offset: u64,
    of: u32,
    index: u64,
) -> Result<Option<Slot>, NoMemory>
    ensures { IfOk result (λ slot. IsSlot context.now (λ n abi. option_map (member_slot abi context.now.structs offset (fields_of context.now.structs of) index) (slice_get (fields_of context.now.structs of) index)) slot) }
{
    let Ok(small) = u32::try_from(index) else {
        return Err(NoMemory);
    };
    let Some(at) = context.member_at(of, small) else {
        return Ok(None);
    };
    if at.offset > MOST_BYTES {
        return Err(NoMemory);
    }
    let Some(before) = offset.checked_add(u64::from(at.offset)) else {
        return Err(NoMemory);
    };
    Ok(Some(Slot {
        ctype: at.ctype,
        offset: before,
        braces: true,
    }))
}

/// The item of an index of an array.
fn item_slot(offset: u64, item: u32, bytes: u32, index: u64) -> Result<Slot, NoMemory>
    ensures { IfOk result (λ slot. slot ≡ record { ctype = item; offset = offset + index * bytes; braces = true }) }
{
    let Some(before) = index.checked_mul(u64::from(bytes)) else {
        return Err(NoMemory);
    };
    let Some(behind) = offset.checked_add(before) else {
        return Err(NoMemory);
    };
    Ok(Slot {
        ctype: item,
        offset: behind,
        braces: true,
    })
}

/// What is found where no part is left: a number or a pointer wants one, which is rule 5 at the declared name.
pub(crate) fn ended(place: Place, filled: Filled, index: u64) -> Found<()>
    ensures { (n : Numbering) (structs : List StructDef) → ended place (filled_at n structs filled) index ≡ outcome_of result }
{
    match filled {
        Filled::One(_) => {
            if index != 0 {
                return Found::Passes(());
            }
            Found::Refused(Fault {
                place,
                broken: Broken::Rule(5),
            })
        }
        Filled::Nothing(_) => Found::Passes(()),
        Filled::Members { .. } => Found::Passes(()),
        Filled::Items { .. } => Found::Passes(()),
    }
}

/// The index behind that of what a part sets.
pub(crate) fn following(index: u64) -> Result<u64, NoMemory>
    ensures { IfOk result (λ next. next ≡ index + 1) }
{
    index.checked_add(1).ok_or(NoMemory)
}
