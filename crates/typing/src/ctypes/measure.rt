ghost use Rattle.std.specs.Prelude.{◌≡◌, ◌<◌, ℕ, Option, None, Some, min, length, slice_get, option_map, IfSome, IfNone};
ghost use Rattle.cbase.specs.declared.abi.Abi.{Abi};
ghost use Rattle.cbase.specs.declared.abi.Abi.TheVariants.{Lp64};
ghost use Rattle.cbase.specs.declared.layout.Layout.{Layout};
ghost use Rattle.cbase.specs.Layout.{layout_of, type_layout, struct_at, extent_of, alignment_of};
ghost use Rattle.cbase.specs.Kept.{capped, IsSmall};
ghost use Rattle.cbase.specs.KeptRows.{part_layout, row_layout, IsSmallPart, IsSmallRow};
ghost use Rattle.cbase.specs.Offset.{fields_of, index_of, offset_of};
ghost use Rattle.typing.specs.ctypes.Table.{type_at};

use crate::ctypes::structs::{MemberAt, entry_at, place_at};
use crate::ctypes::types::Types;
use cbase::{Extent, Layout, Row, RowPart, told};

impl Types {
    /// The size of the type of that number, whatever the data layout (C11 6.5.3.4).
    ///
    /// `Incomplete` is for a type that is, or holds other than by pointers, `void` or an incomplete struct; so
    /// it is for an integer of another number of bytes than 1, 2, 4 or 8, and for a struct whose number is past
    /// the list, which no program has. It takes no memory and one step, however the type is built.
    pub fn size(&self, number: u32) -> Extent
        requires { number < length self.now.types }
        ensures { (abi : Abi) → result ≡ extent_of (layout_of abi self.now.structs (type_at self.now.types number)) }
    {
        told(self.layout(number))
    }

    /// The alignment of the type of that number in bytes, whatever the data layout (C11 6.2.8).
    ///
    /// It is `None` exactly where `size` answers `Incomplete`. It takes no memory and one step.
    pub fn align(&self, number: u32) -> Option<u32>
        requires { number < length self.now.types }
        ensures { (abi : Abi) → result ≡ alignment_of (layout_of abi self.now.structs (type_at self.now.types number)) }
    {
        match self.layout(number) {
            None => None,
            Some(layout) => Some(layout.alignment),
        }
    }

    /// Where the first member of that name lies in the struct of that number (C11 6.5.2.3 and 7.19).
    ///
    /// It is `None` exactly where the struct has no member of that name. Names of members differ in C. It takes
    /// no memory, and one look-up in a table of names.
    pub fn field(&self, of: u32, name: &[u8]) -> Option<MemberAt>
        ensures index { option_map (λ at. at.index) result ≡ index_of name.now (fields_of self.now.structs of) }
        ensures offset { (abi : Abi) → IfSome result (λ at. option_map (λ offset. min offset 65537) (offset_of abi self.now.structs (fields_of self.now.structs of) at.index) ≡ Some at.offset) }
        ensures ctype { IfSome result (λ at. option_map (λ field. field.ctype) (slice_get (fields_of self.now.structs of) at.index) ≡ Some (type_at self.now.types at.ctype)) }
        ensures inside { IfSome result (λ at. at.ctype < length self.now.types) }
    {
        match entry_at(&self.structs, of as usize) {
            None => None,
            Some(kept) => kept.places.get(name).copied(),
        }
    }

    /// The member of that index in the struct of that number, with where it lies (C11 6.7.2.1p15, 6.7.9p17).
    ///
    /// Members count from 0, in the order in which they were declared. It is `None` exactly where the struct has
    /// no member of that index, so wherever it is incomplete. It takes no memory and one step.
    pub fn member_at(&self, of: u32, index: u32) -> Option<MemberAt>
        ensures none { IfNone result (slice_get (fields_of self.now.structs of) index ≡ None) }
        ensures index { IfSome result (λ at. at.index ≡ index) }
        ensures offset { (abi : Abi) → IfSome result (λ at. option_map (λ offset. min offset 65537) (offset_of abi self.now.structs (fields_of self.now.structs of) index) ≡ Some at.offset) }
        ensures ctype { IfSome result (λ at. option_map (λ field. field.ctype) (slice_get (fields_of self.now.structs of) index) ≡ Some (type_at self.now.types at.ctype)) }
        ensures inside { IfSome result (λ at. at.ctype < length self.now.types) }
    {
        match entry_at(&self.structs, of as usize) {
            None => None,
            Some(kept) => place_at(&kept.in_order, index as usize),
        }
    }

    /// The layout of the type of that number, whatever the data layout, where it has one (C11 6.5.3.4, 6.2.8).
    ///
    /// It is `None` exactly where `size` answers `Incomplete`. It takes no memory and one step.
    pub fn layout(&self, number: u32) -> Option<Layout>
        requires { number < length self.now.types }
        ensures value { result ≡ option_map capped (layout_of Lp64 self.now.structs (type_at self.now.types number)) }
        ensures small { IfSome result IsSmall }
    {
        let row = self.row(number);
        match self.part_layout(row.part) {
            None => None,
            Some(part) => Some(part.repeated(row.count)),
        }
    }

    /// The row of the type of that number.
    fn row(&self, number: u32) -> Row
        requires { number < length self.now.types }
        ensures layout { (of_struct : ℕ → Option Layout) → option_map capped (type_layout Lp64 of_struct (type_at self.now.types number)) ≡ row_layout of_struct result }
        ensures small { IsSmallRow result }
    {
        self.rows[number as usize]
    }

    /// The layout of one part of a row.
    fn part_layout(&self, part: RowPart) -> Option<Layout>
        requires { IsSmallPart part }
        ensures value { result ≡ option_map capped (part_layout (struct_at Lp64 (length self.now.structs) self.now.structs) part) }
        ensures small { IfSome result IsSmall }
    {
        match part {
            RowPart::Unsized => None,
            RowPart::Scalar(bytes) => Some(Layout::scalar(bytes)),
            RowPart::Struct(of) => self.struct_layout(of),
        }
    }

    /// The layout of the struct of that number: none where it is not complete.
    fn struct_layout(&self, of: u32) -> Option<Layout>
        ensures value { result ≡ option_map capped (struct_at Lp64 (length self.now.structs) self.now.structs of) }
        ensures small { IfSome result IsSmall }
    {
        match entry_at(&self.structs, of as usize) {
            None => None,
            Some(kept) => kept.layout,
        }
    }
}
