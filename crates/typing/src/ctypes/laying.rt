ghost use Rattle.std.specs.Prelude.{◌≡◌, ◌<◌, ℕ, [], ◌∷◌, ◌++◌, List, None, Some, map, min, All, length, option_map, IfSome, IfOk, OnOk, if◌then◌else◌};
ghost use Rattle.std.specs.Int.{next_multiple_of};
ghost use Rattle.std.specs.Str.{bytes_eq};
ghost use Rattle.cbase.specs.declared.abi.Abi.TheVariants.{Lp64};
ghost use Rattle.cbase.specs.Layout.{layout_of, no_fields, fields_layout};
ghost use Rattle.cbase.specs.Kept.{capped, IsSmall};
ghost use Rattle.typing.specs.ctypes.Structs.{fields_of};
ghost use Rattle.typing.specs.ctypes.Places.{find_in, first_of, ArePlaces, AreInOrder};

use crate::ctypes::structs::{Laid, Member, MemberAt};
use crate::ctypes::types::Types;
use cbase::{Layout, NoMemory};
use indexmap::IndexMap;
use std::alloc::Global;

/// What every offset above 65,536 is kept as.
const TOO_LARGE: u32 = 65_537;

/// How a struct of these members is laid: not at all where the type of one is incomplete.
pub(crate) fn lay(
    alloc: Global,
    members: &[Member],
    types: &Types,
) -> Result<Option<Laid>, NoMemory>
    requires { All (λ member. member.ctype < length types.now.types) members.now }
    ensures layout { IfOk result (λ laid. option_map (λ l. l.layout) laid ≡ option_map capped (fields_layout no_fields (map (λ field. layout_of Lp64 types.now.structs field.ctype) (fields_of types.now.types members.now)))) }
    ensures small { IfOk result (λ laid. IfSome laid (λ l. IsSmall l.layout)) }
    ensures in_order { IfOk result (λ laid. IfSome laid (λ l. AreInOrder (length members.now) types.now.structs (fields_of types.now.types members.now) members.now l.in_order.items)) }
    ensures places { IfOk result (λ laid. IfSome laid (λ l. ArePlaces types.now.structs (fields_of types.now.types members.now) members.now (find_in l.places.entries))) }
{
    if members.len() > u32::MAX as usize {
        return Err(NoMemory);
    }
    let mut before = Layout::empty();
    let mut places = IndexMap::new(alloc);
    let mut in_order = Vec::new(alloc);
    for (index, member) in members.iter().enumerate() {
        let Some(next) = types.layout(member.ctype) else {
            return Ok(None);
        };
        let at = place_behind(before, next, index as u32, member.ctype);
        put_member(
            alloc,
            &mut places,
            &mut in_order,
            member.name.as_slice(),
            at,
        )?;
        before = before.with_field(next);
    }
    Ok(Some(Laid {
        layout: before.padded(),
        places,
        in_order,
    }))
}

/// Where a member of that layout and type lies, in a struct of which `before` is laid.
fn place_behind(before: Layout, member: Layout, index: u32, ctype: u32) -> MemberAt
    requires before { IsSmall before }
    requires member { IsSmall member }
    ensures offset { result.offset ≡ min (next_multiple_of before.size member.alignment) 65537 }
    ensures index { result.index ≡ index }
    ensures ctype { result.ctype ≡ ctype }
{
    let offset = before.size.next_multiple_of(member.alignment);
    MemberAt {
        offset: offset.min(TOO_LARGE),
        index,
        ctype,
    }
}

/// Puts a member behind the others, and by its name, where no member before it has that name.
fn put_member(
    alloc: Global,
    places: &mut IndexMap<Vec<u8>, MemberAt>,
    in_order: &mut Vec<MemberAt>,
    name: &[u8],
    at: MemberAt,
) -> Result<(), NoMemory>
    ensures places { OnOk result ((other : List ℕ) → find_in places.new.entries other ≡ first_of (find_in places.old.entries other) (if bytes_eq other name.now then Some at else None)) }
    ensures in_order { OnOk result (in_order.new.items ≡ in_order.old.items ++ at ∷ []) }
{
    in_order.push(at)?;
    if places.contains_key(name) {
        return Ok(());
    }
    let copy = Vec::from_slice(alloc, name)?;
    places.insert(copy, at)?;
    Ok(())
}
