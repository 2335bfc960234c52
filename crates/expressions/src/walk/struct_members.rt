ghost use Rattle.std.specs.Prelude.{◌≡◌, ◌≤◌, ◌<◌, ◌+◌, ℕ, [], Some, Ok, Err, length, IfOk, All};
ghost use Rattle.cbase.specs.declared.tree.expr.ExprForm.TheOpen.{Struct};
ghost use Rattle.cbase.specs.declared.tree.spec.TypeSpec.TheVariants.{Struct as StructSpec};
ghost use Rattle.ctrees.specs.Levels.{spec_levels, field_decl_levels, field_name_levels, maybe_levels};
ghost use Rattle.typing.specs.Typing.{WordsAre, MembersAre, NamesAre, MemberIs, MemberSizesAre};
ghost use Rattle.cbase.specs.declared.abi.Abi.{Abi};
ghost use Rattle.cbase.specs.declared.no_memory.NoMemory.{NoMemory};
ghost use Rattle.typing.specs.declared.fault.Fault.{Fault};
ghost use Rattle.expressions.specs.declared.found.Found.TheVariants.{Passes, Refused};
ghost use Rattle.expressions.specs.Counted.{WherePasses};
ghost use Rattle.expressions.specs.Declaring.{IsFixed, IsMemberTaken, IsClosed};
ghost use Rattle.expressions.specs.Found.{a_type, some_sizes, some_members};
ghost use Rattle.expressions.specs.Members.{AreMembers};
ghost use Rattle.expressions.specs.Nests.{Nests};
ghost use Rattle.expressions.specs.Numbers.{named_at, fields_at};
ghost use Rattle.expressions.specs.Walked.{Walked, Says, SaysBy};

use crate::checker::{Checker, Within};
use crate::context::Context;
use crate::found::Found;
use crate::members::Members;
use crate::named_type::NamedType;
use crate::nodes::declared_members::{add_member, member_fault};
use crate::part::{Part, Told};
use crate::walk::type_names::declare;
use cbase::{Expr, FieldDecl, FieldName, Identifier, List, NoMemory, Place};
use std::alloc::Global;
use typing::ctypes::{Broken, Member};
use typing::{Fault, Size};

impl<F: Fn(&mut Context, Within, Part<'_>) -> Result<Found<Told>, NoMemory>> Checker<F> {
    /// What is found of a struct with its members in braces (C11 6.7.2.1): its tag, the declarations of the members in the order of the text, and its tag
    /// again at the `}`, behind which it is complete.
    ///
    /// Want of memory is the only error, and nothing is said of the context then.
    pub fn members(
        &self,
        alloc: Global,
        context: &mut Context,
        name: &Option<Identifier>,
        fields: &List<FieldDecl>,
    ) -> Result<Found<NamedType>, NoMemory>
        requires nests { Nests self.now.abi self.now.depth (F.pre self.now.inner) (F.post self.now.inner) }
        requires deep { spec_levels (StructSpec name.now (Some fields.now)) ≤ self.now.depth + 1 }
        ensures { IfOk result (λ found. Walked (Says self.now.abi (λ o. WordsAre (Struct name.now (Some fields.now)) o)) a_type context.old context.new found) }
    {
        let number = match context.open_struct(alloc, name) {
            Ok(Found::Passes(number)) => number,
            Ok(Found::Refused(fault)) => return Ok(Found::Refused(fault)),
            Err(error) => return Err(error),
        };
        let mut members = Members::new(alloc);
        let declared = self.declarations(alloc, context, fields.as_slice(), &mut members);
        close(alloc, context, number, members.into_list(), declared)
    }

    /// The declarations of members (C11 6.7.2.1), the words of each and its names, which are put behind those that the struct has.
    fn declarations(
        &self,
        alloc: Global,
        context: &mut Context,
        fields: &[FieldDecl],
        members: &mut Members,
    ) -> Result<Found<()>, NoMemory>
        requires nests { Nests self.now.abi self.now.depth (F.pre self.now.inner) (F.post self.now.inner) }
        requires deep { All (λ field. field_decl_levels field ≤ self.now.depth) fields.now }
        requires members { AreMembers context.old members.old.list members.old.names members.old.layout }
        ensures found { IfOk result (λ found. Walked (SaysBy self.now.abi (λ n o. MembersAre (fields_at n members.old.list) fields.now o)) (some_members members.new.list) context.old context.new found) }
        ensures members { IfOk result (λ found. WherePasses found (AreMembers context.new members.new.list members.new.names members.new.layout)) }
    {
        for field in fields {
            let base = match self.words(alloc, context, &field.spec) {
                Ok(Found::Passes(base)) => base,
                Ok(Found::Refused(fault)) => return Ok(Found::Refused(fault)),
                Err(error) => return Err(error),
            };
            match self.member_names(alloc, context, base, field.names.as_slice(), members) {
                Ok(Found::Passes(())) => {}
                Ok(Found::Refused(fault)) => return Ok(Found::Refused(fault)),
                Err(error) => return Err(error),
            }
        }
        Ok(Found::Passes(()))
    }

    /// The members that a declaration names.
    fn member_names(
        &self,
        alloc: Global,
        context: &mut Context,
        base: NamedType,
        names: &[FieldName],
        members: &mut Members,
    ) -> Result<Found<()>, NoMemory>
        requires nests { Nests self.now.abi self.now.depth (F.pre self.now.inner) (F.post self.now.inner) }
        requires deep { All (λ name. field_name_levels name ≤ self.now.depth) names.now }
        requires base { base.ctype < length context.old.types }
        requires members { AreMembers context.old members.old.list members.old.names members.old.layout }
        ensures found { IfOk result (λ found. Walked (SaysBy self.now.abi (λ n o. NamesAre (named_at n base) (fields_at n members.old.list) names.now o)) (some_members members.new.list) context.old context.new found) }
        ensures members { IfOk result (λ found. WherePasses found (AreMembers context.new members.new.list members.new.names members.new.layout)) }
    {
        for name in names {
            match self.declared_member(alloc, context, base, name, members) {
                Ok(Found::Passes(())) => {}
                Ok(Found::Refused(fault)) => return Ok(Found::Refused(fault)),
                Err(error) => return Err(error),
            }
        }
        Ok(Found::Passes(()))
    }

    /// A member: its sizes, its width, of which nothing is asked (C11 6.7.2.1p4), and what is found at its name behind them.
    fn declared_member(
        &self,
        alloc: Global,
        context: &mut Context,
        base: NamedType,
        name: &FieldName,
        members: &mut Members,
    ) -> Result<Found<()>, NoMemory>
        requires nests { Nests self.now.abi self.now.depth (F.pre self.now.inner) (F.post self.now.inner) }
        requires deep { field_name_levels name.now ≤ self.now.depth }
        requires base { base.ctype < length context.old.types }
        requires members { AreMembers context.old members.old.list members.old.names members.old.layout }
        ensures found { IfOk result (λ found. Walked (SaysBy self.now.abi (λ n o. MemberIs (named_at n base) (fields_at n members.old.list) name.now o)) (some_members members.new.list) context.old context.new found) }
        ensures members { IfOk result (λ found. WherePasses found (AreMembers context.new members.new.list members.new.names members.new.layout)) }
    {
        let mut sizes = Vec::new(alloc);
        match self.member_sizes(context, name.sizes.as_slice(), &mut sizes) {
            Ok(Found::Passes(())) => {}
            Ok(Found::Refused(fault)) => return Ok(Found::Refused(fault)),
            Err(error) => return Err(error),
        }
        match &name.bits {
            None => {}
            Some(width) => match self.loaded(context, width) {
                Ok(Found::Passes(_)) => {}
                Ok(Found::Refused(fault)) => return Ok(Found::Refused(fault)),
                Err(error) => return Err(error),
            },
        }
        match declare(context, base, name.stars, &sizes) {
            Ok(named) => take_member(alloc, context, members, name, named),
            Err(error) => Err(error),
        }
    }

    /// The sizes of a member, the outermost first, which are put behind one another (C11 6.7.6.2): one that is given is an integer constant expression of at
    /// least 1, or rule 9 at it (6.7.2.1p9, 6.7.6.2p1).
    pub fn member_sizes(
        &self,
        context: &mut Context,
        sizes: &[Option<Expr>],
        found: &mut Vec<Size>,
    ) -> Result<Found<()>, NoMemory>
        requires nests { Nests self.now.abi self.now.depth (F.pre self.now.inner) (F.post self.now.inner) }
        requires deep { All (λ size. maybe_levels size ≤ self.now.depth) sizes.now }
        requires empty { found.old.items ≡ [] }
        ensures { IfOk result (λ told. Walked (Says self.now.abi (λ o. MemberSizesAre sizes.now o)) (some_sizes found.new.items) context.old context.new told) }
    {
        for size in sizes {
            let one = match size {
                None => Size::LeftOut,
                Some(expr) => match self.array_size(context, expr) {
                    Ok(Found::Passes(one)) => match fixed(expr.place, one) {
                        Found::Passes(one) => one,
                        Found::Refused(fault) => return Ok(Found::Refused(fault)),
                    },
                    Ok(Found::Refused(fault)) => return Ok(Found::Refused(fault)),
                    Err(error) => return Err(error),
                },
            };
            found.push(one)?;
        }
        Ok(Found::Passes(()))
    }
}

/// A size of a member that is given: one that is no integer constant expression is rule 9 at it.
fn fixed(place: Place, size: Size) -> Found<Size>
    ensures { IsFixed place size result }
{
    match size {
        Size::NotConstant => Found::Refused(Fault {
            place,
            broken: Broken::Rule(9),
        }),
        Size::Counted(_) | Size::LeftOut => Found::Passes(size),
    }
}

/// A member of that type: what is broken at it, or it stands behind the others.
fn take_member(
    alloc: Global,
    context: &Context,
    members: &mut Members,
    name: &FieldName,
    named: NamedType,
) -> Result<Found<()>, NoMemory>
    requires below { named.ctype < length context.now.types }
    requires members { AreMembers context.now members.old.list members.old.names members.old.layout }
    ensures taken { (abi : Abi) → IfOk result (λ found. IsMemberTaken abi context.now members.old.list members.new.list name.now named found) }
    ensures members { IfOk result (λ found. WherePasses found (AreMembers context.now members.new.list members.new.names members.new.layout)) }
{
    if let Some(fault) = member_fault(context, members, name, named) {
        return Ok(Found::Refused(fault));
    }
    let Some(layout) = context.layout(named.ctype) else {
        return Ok(Found::Refused(Fault {
            place: name.place,
            broken: Broken::Rule(3),
        }));
    };
    match add_member(alloc, context, members, name, named.ctype, layout) {
        Ok(()) => Ok(Found::Passes(())),
        Err(error) => Err(error),
    }
}

/// The struct of that number behind its members, where these pass.
fn close(
    alloc: Global,
    context: &mut Context,
    number: u32,
    members: List<Member>,
    declared: Result<Found<()>, NoMemory>,
) -> Result<Found<NamedType>, NoMemory>
    requires { IfOk declared (λ found. WherePasses found (All (λ member. member.ctype < length context.old.types) members)) }
    ensures passes { declared ≡ Ok (Passes tt) → IfOk result (λ found. IsClosed number members context.old context.new found) }
    ensures refused { (first : Fault) → declared ≡ Ok (Refused first) → IfOk result (λ found. (found ≡ Refused first) × (context.new ≡ context.old)) }
    ensures err { (error : NoMemory) → declared ≡ Err error → IfOk result (λ found. ⊥) }
{
    match declared {
        Ok(Found::Passes(())) => match context.complete(alloc, number, members) {
            Ok(_) => match context.structure(number) {
                Ok(ctype) => Ok(Found::Passes(NamedType { ctype, found: None })),
                Err(error) => Err(error),
            },
            Err(error) => Err(error),
        },
        Ok(Found::Refused(fault)) => Ok(Found::Refused(fault)),
        Err(error) => Err(error),
    }
}
