ghost use Rattle.std.specs.Prelude.{◌≡◌, IfOk};
ghost use Rattle.cevents.specs.Building.{built};
ghost use Rattle.cevents.specs.Workshop.{left_by};

use crate::builder::Builder;
use crate::texts::{appended, identifier_at, maybe_identifier_at, text_at};
use cbase::{BasicType, Boxed, List, NoMemory, TypeName, TypeSpec};
use cevents::{Event, Piece};
use cgrammar::Terminal;

impl Builder {
    /// A basic type (C11 6.7.2).
    pub(crate) fn basic(&mut self, row: &[Terminal<'_>], basic: BasicType) -> Result<bool, NoMemory>
        ensures { IfOk result (λ made. left_by made self.new ≡ built row.now (Event.Basic basic) self.old.count self.old.pieces) }
    {
        self.put_type(TypeSpec::Basic(basic))
    }

    /// A type that a typedef names (C11 6.7.8).
    pub(crate) fn named(&mut self, row: &[Terminal<'_>], at: u32) -> Result<bool, NoMemory>
        ensures { IfOk result (λ made. left_by made self.new ≡ built row.now (Event.Named at) self.old.count self.old.pieces) }
    {
        let name = text_at(self.alloc, row, at)?;
        self.put_type(TypeSpec::Named(name))
    }

    /// A struct by its tag alone (C11 6.7.2.3).
    pub(crate) fn struct_tag(&mut self, row: &[Terminal<'_>], tag: u32) -> Result<bool, NoMemory>
        ensures { IfOk result (λ made. left_by made self.new ≡ built row.now (Event.StructTag tag) self.old.count self.old.pieces) }
    {
        let name = identifier_at(self.alloc, row, tag)?;
        self.put_type(TypeSpec::Struct {
            name: Some(name),
            fields: None,
        })
    }

    /// An enum by its tag alone (C11 6.7.2.3).
    pub(crate) fn enum_tag(&mut self, row: &[Terminal<'_>], tag: u32) -> Result<bool, NoMemory>
        ensures { IfOk result (λ made. left_by made self.new ≡ built row.now (Event.EnumTag tag) self.old.count self.old.pieces) }
    {
        let name = identifier_at(self.alloc, row, tag)?;
        self.put_type(TypeSpec::Enum {
            name: Some(name),
            values: None,
        })
    }

    /// A struct with its fields (C11 6.7.2.1).
    pub(crate) fn struct_with_fields(
        &mut self,
        row: &[Terminal<'_>],
        tag: Option<u32>,
    ) -> Result<bool, NoMemory>
        ensures { IfOk result (λ made. left_by made self.new ≡ built row.now (Event.Struct tag) self.old.count self.old.pieces) }
    {
        let name = maybe_identifier_at(self.alloc, row, tag)?;
        let Some(fields) = self.pop_fields() else {
            return Ok(false);
        };
        self.put_type(TypeSpec::Struct {
            name,
            fields: Some(fields),
        })
    }

    /// An enum with its constants (C11 6.7.2.2).
    pub(crate) fn enum_with_values(
        &mut self,
        row: &[Terminal<'_>],
        tag: Option<u32>,
    ) -> Result<bool, NoMemory>
        ensures { IfOk result (λ made. left_by made self.new ≡ built row.now (Event.Enum tag) self.old.count self.old.pieces) }
    {
        let name = maybe_identifier_at(self.alloc, row, tag)?;
        let Some(values) = self.pop_enumerators() else {
            return Ok(false);
        };
        self.put_type(TypeSpec::Enum {
            name,
            values: Some(values),
        })
    }

    /// `typeof` of an expression.
    pub(crate) fn type_of_expr(&mut self, row: &[Terminal<'_>]) -> Result<bool, NoMemory>
        ensures { IfOk result (λ made. left_by made self.new ≡ built row.now Event.TypeOfExpr self.old.count self.old.pieces) }
    {
        let Some(expr) = self.pop_expr() else {
            return Ok(false);
        };
        self.put_type(TypeSpec::OfExpr(expr))
    }

    /// `typeof` of a type.
    pub(crate) fn type_of_type(&mut self, row: &[Terminal<'_>]) -> Result<bool, NoMemory>
        ensures { IfOk result (λ made. left_by made self.new ≡ built row.now Event.TypeOfType self.old.count self.old.pieces) }
    {
        let Some(to) = self.pop_type_name() else {
            return Ok(false);
        };
        self.put_type(TypeSpec::OfType(to))
    }

    /// No sizes yet.
    pub(crate) fn no_sizes(&mut self, row: &[Terminal<'_>]) -> Result<bool, NoMemory>
        ensures { IfOk result (λ made. left_by made self.new ≡ built row.now Event.NoSizes self.old.count self.old.pieces) }
    {
        self.put(Piece::Sizes(List::new(self.alloc)))
    }

    /// One more size, which is left out.
    pub(crate) fn open_size(&mut self, row: &[Terminal<'_>]) -> Result<bool, NoMemory>
        ensures { IfOk result (λ made. left_by made self.new ≡ built row.now Event.OpenSize self.old.count self.old.pieces) }
    {
        let Some(sizes) = self.pop_sizes() else {
            return Ok(false);
        };
        let longer = appended(sizes, None)?;
        self.put(Piece::Sizes(longer))
    }

    /// One more size.
    pub(crate) fn size(&mut self, row: &[Terminal<'_>]) -> Result<bool, NoMemory>
        ensures { IfOk result (λ made. left_by made self.new ≡ built row.now Event.Size self.old.count self.old.pieces) }
    {
        let Some(size) = self.pop_expr() else {
            return Ok(false);
        };
        let Some(sizes) = self.pop_sizes() else {
            return Ok(false);
        };
        let longer = appended(sizes, Some(size.into_inner()))?;
        self.put(Piece::Sizes(longer))
    }

    /// The name of a type (C11 6.7.7).
    pub(crate) fn type_name(&mut self, row: &[Terminal<'_>], stars: u32) -> Result<bool, NoMemory>
        ensures { IfOk result (λ made. left_by made self.new ≡ built row.now (Event.TypeName stars) self.old.count self.old.pieces) }
    {
        let Some(sizes) = self.pop_sizes() else {
            return Ok(false);
        };
        let Some(spec) = self.pop_type() else {
            return Ok(false);
        };
        let name = Boxed::new(self.alloc, TypeName { spec, stars, sizes })?;
        self.put(Piece::TypeName(name))
    }
}
