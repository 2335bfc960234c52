ghost use Rattle.std.specs.Prelude.{◌≡◌, ◌<◌, ℕ, List, length, option_map, IfOk, IfSome};
ghost use Rattle.cbase.specs.declared.abi.Abi.{Abi};
ghost use Rattle.cbase.specs.declared.structs.StructDef.{StructDef};
ghost use Rattle.cbase.specs.Offset.{fields_of};
ghost use Rattle.typing.specs.Initialisers.{Members as MembersOf, items_of, one_of};
ghost use Rattle.expressions.specs.Context.{Agrees};
ghost use Rattle.expressions.specs.Nests.{slot_at};
ghost use Rattle.expressions.specs.Numbers.{Numbering};
ghost use Rattle.items.specs.initialisers.Filled.{filled_at, IsKept, IsFilled};

use cbase::{Extent, NoMemory};
use expressions::{Context, Slot};
use typing::ctypes::Shape;

/// What braces fill (C11 6.7.9p11, p17).
#[derive(Clone, Copy)]
pub(crate) enum Filled {
    /// One number or pointer.
    One(Slot),
    /// A struct without members, with so many bytes of the object before it.
    Nothing(u64),
    /// The members of a struct.
    Members {
        /// How many bytes of the object stand before it.
        offset: u64,
        /// Its number.
        of: u32,
    },
    /// The items of an array.
    Items {
        /// How many bytes of the object stand before the first.
        offset: u64,
        /// The number of their type.
        item: u32,
        /// How many there are.
        count: u64,
        /// How many bytes each of them has.
        bytes: u32,
    },
}

/// What braces fill in what is set: none where no braces may stand there (C11 6.7.9p11, p16).
///
/// An item of more than 65,536 bytes, which no object has, is answered as want of memory.
pub(crate) fn filled_of(context: &Context, slot: Slot) -> Result<Option<Filled>, NoMemory>
    requires { slot.ctype < length context.now.types }
    ensures { IfOk result (λ found. IsFilled context.now slot found) }
{
    match context.shape(slot.ctype) {
        Shape::Void => Ok(None),
        Shape::Bool => Ok(one_of(slot)),
        Shape::Int { .. } => Ok(one_of(slot)),
        Shape::Pointer(_) => Ok(one_of(slot)),
        Shape::Struct(of) => Ok(Some(members_of(context, slot.offset, of)?)),
        Shape::Array(item, count) => Ok(Some(items_of(context, slot.offset, item, count)?)),
    }
}

/// A number or a pointer, where it may stand in braces.
fn one_of(slot: Slot) -> Option<Filled>
    ensures is { (n : Numbering) (structs : List StructDef) → one_of (slot_at n slot) ≡ option_map (filled_at n structs) result }
    ensures kept { (count : ℕ) (structs : List StructDef) → slot.ctype < count → IfSome result (IsKept count structs) }
{
    if !slot.braces {
        return None;
    }
    Some(Filled::One(Slot {
        ctype: slot.ctype,
        offset: slot.offset,
        braces: false,
    }))
}

/// The members of the struct of that number. One that has members is complete, or is answered as want of memory.
fn members_of(context: &Context, offset: u64, of: u32) -> Result<Filled, NoMemory>
    ensures is { IfOk result (λ found. (n : Numbering) → MembersOf offset (fields_of context.now.structs of) ≡ filled_at n context.now.structs found) }
    ensures kept { IfOk result (IsKept (length context.now.types) context.now.structs) }
{
    let Some(_) = context.member_at(of, 0) else {
        return Ok(Filled::Nothing(offset));
    };
    if context.is_open(of) {
        return Err(NoMemory);
    }
    Ok(Filled::Members { offset, of })
}

/// The items of an array, each of so many bytes as their type has.
fn items_of(context: &Context, offset: u64, item: u32, count: u64) -> Result<Filled, NoMemory>
    requires { item < length context.now.types }
    ensures is { IfOk result (λ found. (n : Numbering) (abi : Abi) → Agrees n context.now → items_of abi context.now.structs offset (n.ctype item) count ≡ filled_at n context.now.structs found) }
    ensures kept { IfOk result (IsKept (length context.now.types) context.now.structs) }
{
    let bytes = match context.size(item) {
        Extent::Bytes(bytes) => bytes,
        Extent::Incomplete => 0,
        Extent::TooLarge => return Err(NoMemory),
    };
    Ok(Filled::Items {
        offset,
        item,
        count,
        bytes,
    })
}
