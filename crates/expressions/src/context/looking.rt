ghost use Rattle.std.specs.Prelude.{◌≡◌, ◌<◌, ℕ, length, nat_lt, Some, IfSome, is_some, slice_get};
ghost use Rattle.cbase.specs.Completing.{is_open};
ghost use Rattle.typing.specs.ctypes.Table.{type_at, type_of, NamesBelow};
ghost use Rattle.typing.specs.environment.Bounds.{EntityBelow, SignatureBelow};
ghost use Rattle.typing.specs.environment.Environment.{name_found, tag_found};
ghost use Rattle.typing.specs.environment.Scopes.{found_here};
ghost use Rattle.typing.specs.declared.environment.entity.TagForm.TheVariants.{Declared, Mentioned};
ghost use Rattle.expressions.specs.Context.{Agrees};
ghost use Rattle.expressions.specs.Numbers.{Numbering};

use crate::context::Context;
use typing::ctypes::{Shape, Types};
use typing::environment::{Entity, Signature, Tag, TagForm};

impl Context {
    /// The type of that number, taken apart: what it names has lower numbers.
    pub fn shape(&self, number: u32) -> Shape
        requires { number < length self.now.types }
        ensures is { type_at self.now.types number ≡ type_of self.now.types result }
        ensures below { NamesBelow number result }
    {
        self.types.shape(number)
    }

    /// Its types and its structs, each by its number.
    pub fn types(&self) -> &Types
        ensures types { result.now.types ≡ self.now.types }
        ensures structs { result.now.structs ≡ self.now.structs }
    {
        &self.types
    }

    /// Whether a number is that of a type. It takes one step.
    pub fn has_type(&self, number: u32) -> bool
        ensures { result ≡ nat_lt number (length self.now.types) }
    {
        self.types.has(number)
    }

    /// What a name stands for: what the innermost scope that declares it says (C11 6.2.1p4).
    pub fn look_up(&self, name: &[u8]) -> Option<Entity>
        ensures is { result ≡ name_found name.now self.now.environment }
        ensures below { IfSome result (EntityBelow (length self.now.types) self.now.environment.signatures) }
    {
        self.environment.look_up(name)
    }

    /// What a tag that is mentioned stands for (C11 6.7.2.3p8-9).
    pub fn tag(&self, name: &[u8]) -> Option<Tag>
        ensures { result ≡ tag_found Mentioned name.now self.now.environment }
    {
        self.environment.tag(TagForm::Mentioned, name)
    }

    /// What a tag stands for by a declaration of the innermost scope (C11 6.7.2.3p4-6).
    pub fn tag_here(&self, name: &[u8]) -> Option<Tag>
        ensures { result ≡ tag_found Declared name.now self.now.environment }
    {
        self.environment.tag(TagForm::Declared, name)
    }

    /// Whether the innermost scope declares that name (C11 6.7p3).
    pub fn is_declared_here(&self, name: &[u8]) -> bool
        ensures { result ≡ is_some (found_here name.now self.now.environment.names) }
    {
        self.environment.binding_here(name).is_some()
    }

    /// Whether there is a struct of that number whose members are to be given yet (C11 6.7.2.1p8).
    pub fn is_open(&self, number: u32) -> bool
        ensures { result ≡ is_open (slice_get self.now.structs number) }
    {
        self.types.is_open(number)
    }
}

impl Context {
    /// Whether a number is that of a signature. It takes one step.
    pub fn has_signature(&self, number: u32) -> bool
        ensures { result ≡ nat_lt number (length self.now.environment.signatures) }
    {
        match self.environment.signature(number) {
            None => false,
            Some(_) => true,
        }
    }

    /// The signature of a number.
    pub fn signature(&self, number: u32) -> &Signature
        requires { number < length self.now.environment.signatures }
        ensures is { slice_get self.now.environment.signatures number ≡ Some result.now }
        ensures below { SignatureBelow (length self.now.types) result.now }
    {
        match self.environment.signature(number) {
            Some(signature) => signature,
            None => unreachable!(),
        }
    }

    /// The number of the type of the result of the function with the signature of that number.
    pub fn result_of(&self, number: u32) -> u32
        requires { number < length self.now.environment.signatures }
        ensures is { (n : Numbering) → Agrees n self.now → n.ctype result ≡ n.ctype (n.signature number).result }
        ensures below { result < length self.now.types }
    {
        self.signature(number).result
    }
}
