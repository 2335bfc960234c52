ghost use Rattle.std.specs.Prelude.{◌≡◌, ◌<◌, ℕ, length, option_map, IfSome};
ghost use Rattle.cbase.specs.declared.abi.Abi.{Abi};
ghost use Rattle.cbase.specs.declared.abi.Abi.TheVariants.{Lp64};
ghost use Rattle.cbase.specs.Kept.{capped, IsSmall};
ghost use Rattle.cbase.specs.Layout.{layout_of};
ghost use Rattle.typing.specs.ctypes.Table.{type_at};
ghost use Rattle.typing.specs.ctypes.Kinds.{Struct, kind_of, integer_in, has_size};
ghost use Rattle.typing.specs.Calls.{is_struct};
ghost use Rattle.typing.specs.Idiom.{at_most, item_bytes, offset_in_struct, member_offset};
ghost use Rattle.typing.specs.NamedTypes.{is_large};
ghost use Rattle.typing.specs.Nodes.{size_in, size_told, pointed_offset};
ghost use Rattle.expressions.specs.Context.{Agrees};
ghost use Rattle.expressions.specs.Numbers.{Numbering};

use crate::context::Context;
use cbase::{Extent, Layout};
use typing::ctypes::{IntegerType, Shape, integer_type};

/// How many bytes an object may have.
const MOST_BYTES: u32 = 65_536;

impl Context {
    /// The type of integers that the type of that number is, if it is one.
    pub fn integer_type(&self, number: u32) -> Option<IntegerType>
        requires { number < length self.now.types }
        ensures { (n : Numbering) → Agrees n self.now → result ≡ integer_in (kind_of self.now.structs (n.ctype number)) }
    {
        integer_type(&self.types, number)
    }

    /// The size of the type of that number, whatever the data layout (C11 6.5.3.4).
    pub fn size(&self, number: u32) -> Extent
        requires { number < length self.now.types }
        ensures { (n : Numbering) (abi : Abi) → Agrees n self.now → result ≡ size_in abi self.now.structs (n.ctype number) }
    {
        self.types.size(number)
    }

    /// The layout of the type of that number, whatever the data layout, where it has a size (C11 6.5.3.4, 6.2.8).
    pub fn layout(&self, number: u32) -> Option<Layout>
        requires { number < length self.now.types }
        ensures value { result ≡ option_map capped (layout_of Lp64 self.now.structs (type_at self.now.types number)) }
        ensures small { IfSome result IsSmall }
    {
        self.types.layout(number)
    }

    /// Whether the type of that number is complete (C11 6.2.5p1).
    pub fn has_size(&self, number: u32) -> bool
        requires { number < length self.now.types }
        ensures { (n : Numbering) → Agrees n self.now → result ≡ has_size self.now.structs (n.ctype number) }
    {
        match self.types.size(number) {
            Extent::Incomplete => false,
            _ => true,
        }
    }

    /// Whether the type of that number has more than 65,536 bytes, with its padding.
    pub fn is_large(&self, number: u32) -> bool
        requires { number < length self.now.types }
        ensures { (n : Numbering) (abi : Abi) → Agrees n self.now → result ≡ is_large abi self.now.structs (n.ctype number) }
    {
        match self.types.size(number) {
            Extent::TooLarge => true,
            _ => false,
        }
    }

    /// Whether the type of that number is a struct (C11 6.7.2.1).
    pub fn is_struct(&self, number: u32) -> bool
        requires { number < length self.now.types }
        ensures { (n : Numbering) → Agrees n self.now → result ≡ is_struct (kind_of self.now.structs (n.ctype number)) }
    {
        match self.types.shape(number) {
            Shape::Struct(_) => true,
            _ => false,
        }
    }

    /// How many bytes an item of an array of the type of that number has: none for what is no array, and for more than 65,536.
    pub fn item_bytes(&self, number: u32) -> Option<u64>
        requires { number < length self.now.types }
        ensures { (n : Numbering) (abi : Abi) → Agrees n self.now → result ≡ item_bytes abi self.now.structs (kind_of self.now.structs (n.ctype number)) }
    {
        match self.types.shape(number) {
            Shape::Array(item, _) => bytes_in(self.types.size(item)),
            _ => None,
        }
    }

    /// Where the member of that name begins in the struct that the type of that number is: none where there is no such member, and for more than
    /// 65,536 bytes.
    pub fn member_offset(&self, number: u32, name: &[u8]) -> Option<u64>
        requires { number < length self.now.types }
        ensures { (n : Numbering) (abi : Abi) → Agrees n self.now → result ≡ member_offset abi self.now.structs (n.ctype number) name.now }
    {
        match self.types.shape(number) {
            Shape::Struct(of) => self.offset_in_struct(of, name),
            _ => None,
        }
    }

    /// The same of the struct of that number.
    fn offset_in_struct(&self, of: u32, name: &[u8]) -> Option<u64>
        ensures { (abi : Abi) → result ≡ offset_in_struct abi self.now.structs (Struct of) name.now }
    {
        let at = self.types.field(of, name)?;
        at_most(at.offset)
    }

    /// The same of what a pointer of the type of that number leads to, or of the items of an array.
    pub fn pointed_offset(&self, number: u32, name: &[u8]) -> Option<u64>
        requires { number < length self.now.types }
        ensures { (n : Numbering) (abi : Abi) → Agrees n self.now → result ≡ pointed_offset abi self.now.structs (kind_of self.now.structs (n.ctype number)) name.now }
    {
        match self.types.shape(number) {
            Shape::Pointer(item) | Shape::Array(item, _) => self.member_offset(item, name),
            _ => None,
        }
    }
}

/// How many bytes a type has: none where it is incomplete, or has more than 65,536.
fn bytes_in(size: Extent) -> Option<u64>
    ensures { result ≡ size_told size }
{
    match size {
        Extent::Bytes(count) => Some(u64::from(count)),
        Extent::Incomplete | Extent::TooLarge => None,
    }
}

/// A number of bytes of an object: none for more than 65,536.
fn at_most(bytes: u32) -> Option<u64>
    ensures { result ≡ at_most bytes }
{
    if bytes <= MOST_BYTES {
        Some(u64::from(bytes))
    } else {
        None
    }
}
