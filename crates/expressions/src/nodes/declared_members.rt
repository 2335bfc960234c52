ghost use Rattle.std.specs.Prelude.{◌≡◌, ◌<◌, ◌++◌, ◌∷◌, [], ℕ, Some, length, option_map, OnOk};
ghost use Rattle.cbase.specs.declared.abi.Abi.{Abi};
ghost use Rattle.cbase.specs.declared.abi.Abi.TheVariants.{Lp64};
ghost use Rattle.cbase.specs.declared.tree.expr.ExprForm.TheViews.{out-FieldName};
ghost use Rattle.cbase.specs.Kept.{capped, IsSmall};
ghost use Rattle.cbase.specs.Layout.{layout_of};
ghost use Rattle.typing.specs.ctypes.Structs.{fields_of};
ghost use Rattle.typing.specs.ctypes.Table.{type_at};
ghost use Rattle.typing.specs.Braces.{faults_of_member, has_member, name_or_none};
ghost use Rattle.expressions.specs.Context.{Context as AtPlace, Agrees};
ghost use Rattle.expressions.specs.Members.{AreMembers};
ghost use Rattle.expressions.specs.Numbers.{Numbering, named_at, fields_at};
ghost use Rattle.expressions.specs.Settled.{IsFirstOf};

use crate::context::Context;
use crate::members::Members;
use crate::named_type::NamedType;
use crate::nodes::first::{all_at, first_of, unless};
use cbase::{FieldName, Layout, NoMemory};
use std::alloc::Global;
use typing::Fault;
use typing::ctypes::Broken;

/// What is broken at a member of that type behind others, if anything is: what is found of its type; a field of bits is construct 21, a struct of more than
/// 65,536 bytes construct 19, two members of one name rule 2 (C11 6.2.3, 6.7p3), a type without a size rule 3 (6.7.2.1p3).
pub(crate) fn member_fault(
    context: &Context,
    members: &Members,
    name: &FieldName,
    named: NamedType,
) -> Option<Fault>
    requires below { named.ctype < length context.now.types }
    requires members { AreMembers context.now members.now.list members.now.names members.now.layout }
    ensures { (n : Numbering) (abi : Abi) → Agrees n context.now → IsFirstOf (faults_of_member abi context.now.structs (fields_at n members.now.list) (out-FieldName name.now) (named_at n named)) result }
{
    let place = name.place;
    let is_large = members.is_large_with(context.layout(named.ctype));
    let twice = unless(!is_twice(members, name), place, Broken::Rule(2));
    let sized = unless(context.has_size(named.ctype), place, Broken::Rule(3));
    let large = unless(!is_large, place, Broken::Construct(19));
    let of_bits = unless(name.bits.is_none(), place, Broken::Construct(21));
    first_of(
        all_at(place, named.found),
        first_of(of_bits, first_of(large, first_of(twice, sized))),
    )
}

/// Whether a member has the name of one before it; one without a name has none.
fn is_twice(members: &Members, name: &FieldName) -> bool
    ensures { (context : AtPlace) → AreMembers context members.now.list members.now.names members.now.layout → result ≡ has_member (out-FieldName name.now).name (fields_of context.types members.now.list) }
{
    match &name.name {
        None => false,
        Some(name) => members.has(name.as_slice()),
    }
}

/// Puts a member of that layout at which nothing is broken behind the others. Want of memory is the only error, and nothing is said of the members then.
pub(crate) fn add_member(
    alloc: Global,
    context: &Context,
    members: &mut Members,
    name: &FieldName,
    ctype: u32,
    layout: Layout,
) -> Result<(), NoMemory>
    requires below { ctype < length context.now.types }
    requires laid { Some layout ≡ option_map capped (layout_of Lp64 context.now.structs (type_at context.now.types ctype)) }
    requires small { IsSmall layout }
    requires members { AreMembers context.now members.old.list members.old.names members.old.layout }
    ensures pushed { OnOk result (members.new.list ≡ members.old.list ++ record { name = name_or_none (out-FieldName name.now).name; ctype = ctype } ∷ []) }
    ensures are { OnOk result (AreMembers context.now members.new.list members.new.names members.new.layout) }
{
    match &name.name {
        None => members.push(alloc, b"", ctype, layout),
        Some(name) => members.push(alloc, name.as_slice(), ctype, layout),
    }
}
