ghost use Rattle.std.specs.Prelude.{◌≡◌, ◌<◌, ℕ, None, Some, length, min, slice_get, IfSome, IfNone, option_map};
ghost use Rattle.cbase.specs.declared.abi.Abi.{Abi};
ghost use Rattle.cbase.specs.Offset.{fields_of, index_of, offset_of};
ghost use Rattle.typing.specs.ctypes.Table.{type_at};
ghost use Rattle.typing.specs.ctypes.Kinds.{kind_of};
ghost use Rattle.typing.specs.ctypes.Members.{member_of};
ghost use Rattle.typing.specs.Paths.{item_in};
ghost use Rattle.expressions.specs.Context.{Agrees};
ghost use Rattle.expressions.specs.Numbers.{Numbering, judgement_at, IsTypedBelow};

use crate::context::Context;
use typing::ctypes::{Broken, MemberAt, Outcome, Shape};

impl Context {
    /// The type of the member of that name, of a value of the type of that number (C11 6.5.2.3p1), or what is broken there. It takes no memory.
    pub fn member_outcome(&self, number: u32, name: &[u8]) -> Outcome
        requires { number < length self.now.types }
        ensures is { (n : Numbering) → Agrees n self.now → judgement_at n result ≡ member_of self.now.structs (n.ctype number) name.now }
        ensures below { IsTypedBelow (length self.now.types) result }
    {
        match self.types.shape(number) {
            Shape::Struct(of) => {
                if !self.has_size(number) {
                    return Outcome::Broken(Broken::Rule(3));
                }
                match self.types.field(of, name) {
                    Some(at) => Outcome::Typed(at.ctype),
                    None => Outcome::Broken(Broken::Rule(6)),
                }
            }
            _ => Outcome::Broken(Broken::Rule(4)),
        }
    }

    /// The member of an index of the struct of that number, with how many bytes stand before it (C11 6.7.9p17): none where there is no such member. It takes
    /// no memory.
    pub fn member_at(&self, of: u32, index: u32) -> Option<MemberAt>
        ensures none { IfNone result (slice_get (fields_of self.now.structs of) index ≡ None) }
        ensures index { IfSome result (λ at. at.index ≡ index) }
        ensures offset { (abi : Abi) → IfSome result (λ at. option_map (λ offset. min offset 65537) (offset_of abi self.now.structs (fields_of self.now.structs of) index) ≡ Some at.offset) }
        ensures ctype { IfSome result (λ at. option_map (λ field. field.ctype) (slice_get (fields_of self.now.structs of) index) ≡ Some (type_at self.now.types at.ctype)) }
        ensures inside { IfSome result (λ at. at.ctype < length self.now.types) }
    {
        self.types.member_at(of, index)
    }

    /// The member of that name of the struct of that number, with its index (C11 6.7.9p7): none where the struct has no such member. It takes no memory.
    pub fn member_named(&self, of: u32, name: &[u8]) -> Option<MemberAt>
        ensures index { option_map (λ at. at.index) result ≡ index_of name.now (fields_of self.now.structs of) }
        ensures inside { IfSome result (λ at. at.ctype < length self.now.types) }
    {
        self.types.field(of, name)
    }

    /// The number of the type of the items of an array.
    pub fn item(&self, number: u32) -> Option<u32>
        requires { number < length self.now.types }
        ensures is { (n : Numbering) → Agrees n self.now → option_map n.ctype result ≡ item_in (kind_of self.now.structs (n.ctype number)) }
        ensures below { IfSome result (λ item. item < length self.now.types) }
    {
        match self.types.shape(number) {
            Shape::Array(item, _) => Some(item),
            _ => None,
        }
    }
}
