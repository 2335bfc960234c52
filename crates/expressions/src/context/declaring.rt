ghost use Rattle.std.specs.Prelude.{◌≡◌, ◌<◌, ◌++◌, ◌∷◌, [], ℕ, length, true, All, IfOk, OnErr, OnOk, if◌then◌else◌};
ghost use Rattle.cbase.specs.Completing.{fieldless, may_complete, completed};
ghost use Rattle.typing.specs.ctypes.Structs.{fields_of};
ghost use Rattle.typing.specs.environment.Bounds.{EntityBelow, SignatureBelow};
ghost use Rattle.typing.specs.environment.Environment.{name_bound, tag_declared, signature_added};
ghost use Rattle.typing.specs.declared.environment.entity.Binding.TheVariants.{Own};
ghost use Rattle.typing.specs.declared.environment.entity.Tag.TheVariants.{Struct, Enum};
ghost use Rattle.expressions.specs.Context.{declared};
ghost use Rattle.expressions.specs.Language.{struct_tagged, enum_declared};

use crate::context::Context;
use cbase::{List, NoMemory, Text};
use std::alloc::Global;
use typing::ctypes::Member;
use typing::environment::{Binding, Entity, Signature, Tag};

impl Context {
    /// Declares a name without linkage in the innermost scope (C11 6.2.1). Where there is no scope it changes nothing, and where memory is wanting
    /// all stays as it was.
    pub fn declare(&mut self, alloc: Global, name: &[u8], entity: Entity) -> Result<(), NoMemory>
        requires { EntityBelow (length self.old.types) self.old.environment.signatures entity }
        ensures ok { OnOk result (self.new ≡ record self.old { environment = name_bound name.now (Own entity) self.old.environment }) }
        ensures err { OnErr result (self.new ≡ self.old) }
    {
        self.environment.declare(alloc, name, Binding::Own(entity))
    }

    /// Gives a signature a number, behind the others. Where memory is wanting all stays as it was.
    pub fn add_signature(&mut self, signature: Signature) -> Result<u32, NoMemory>
        requires { SignatureBelow (length self.old.types) signature }
        ensures number { IfOk result (λ number. number ≡ length self.old.environment.signatures) }
        ensures ok { OnOk result (self.new ≡ record self.old { environment = signature_added signature self.old.environment }) }
        ensures err { OnErr result (self.new ≡ self.old) }
    {
        self.environment.add_signature(signature)
    }

    /// Declares a tag of a struct in the innermost scope: a struct without members, whose number stands behind the others (C11 6.7.2.3p8), and whose members are
    /// listed from here on or not.
    ///
    /// Want of memory is the only error, and nothing is said of the context then: the struct may be there, and its tag not.
    pub fn declare_struct(
        &mut self,
        alloc: Global,
        name: &[u8],
        listed: bool,
    ) -> Result<u32, NoMemory>
        ensures number { IfOk result (λ number. number ≡ length self.old.structs) }
        ensures ok { OnOk result (declared self.new ≡ struct_tagged listed name.now (declared self.old)) }
        ensures types { OnOk result (self.new.types ≡ self.old.types) }
        ensures handed { OnOk result (self.new.handed ≡ self.old.handed) }
    {
        let number = self.types.declare(alloc, Text::from_slice(alloc, name)?)?;
        self.environment
            .declare_tag(alloc, name, Tag::Struct { number, listed })?;
        Ok(number)
    }

    /// Declares a tag of a struct whose members follow, in the innermost scope (C11 6.7.2.1p8). Where memory is wanting all stays as it was.
    pub fn list_struct(&mut self, alloc: Global, name: &[u8], number: u32) -> Result<(), NoMemory>
        ensures ok { OnOk result (self.new ≡ record self.old { environment = tag_declared name.now (Struct number true) self.old.environment }) }
        ensures err { OnErr result (self.new ≡ self.old) }
    {
        self.environment.declare_tag(
            alloc,
            name,
            Tag::Struct {
                number,
                listed: true,
            },
        )
    }

    /// Puts a struct without members and without a tag behind the others, and gives its number (C11 6.7.2.1p8). Where memory is wanting all stays as
    /// it was.
    pub fn add_struct(&mut self, alloc: Global) -> Result<u32, NoMemory>
        ensures number { IfOk result (λ number. number ≡ length self.old.structs) }
        ensures ok { OnOk result (self.new ≡ record self.old { structs = self.old.structs ++ fieldless [] ∷ [] }) }
        ensures err { OnErr result (self.new ≡ self.old) }
    {
        self.types.declare(alloc, Text::new(alloc))
    }

    /// Declares a tag of an enum whose constants follow, in the innermost scope (C11 6.7.2.2). Where memory is wanting all stays as it was.
    pub fn list_enum(&mut self, alloc: Global, name: &[u8]) -> Result<(), NoMemory>
        ensures ok { OnOk result (self.new ≡ record self.old { environment = tag_declared name.now (Enum true) self.old.environment }) }
        ensures err { OnErr result (self.new ≡ self.old) }
    {
        self.environment
            .declare_tag(alloc, name, Tag::Enum { listed: true })
    }

    /// Declares a tag of an enum in the innermost scope (C11 6.7.2.3). Where memory is wanting all stays as it was.
    pub fn declare_enum(&mut self, alloc: Global, name: &[u8]) -> Result<(), NoMemory>
        ensures ok { OnOk result (declared self.new ≡ enum_declared name.now (declared self.old)) }
        ensures err { OnErr result (self.new ≡ self.old) }
        ensures types { OnOk result (self.new.types ≡ self.old.types) }
        ensures handed { OnOk result (self.new.handed ≡ self.old.handed) }
    {
        self.environment
            .declare_tag(alloc, name, Tag::Enum { listed: false })
    }

    /// Gives the struct of that number its members, with which it is complete, and says whether it has done so (C11 6.7.2.1p8).
    ///
    /// It has not, and all stays as it was, exactly where there is no such struct, where its members were given before, and where a member's type
    /// is incomplete. Where memory is wanting all stays as it was, too.
    pub fn complete(
        &mut self,
        alloc: Global,
        number: u32,
        members: List<Member>,
    ) -> Result<bool, NoMemory>
        requires { All (λ member. member.ctype < length self.old.types) members }
        ensures answer { IfOk result (λ done. done ≡ may_complete self.old.structs number (fields_of self.old.types members)) }
        ensures after { IfOk result (λ done. self.new ≡ record self.old { structs = (if done then completed self.old.structs number (fields_of self.old.types members) else self.old.structs) }) }
        ensures err { OnErr result (self.new ≡ self.old) }
    {
        self.types.complete(alloc, number, members)
    }
}
