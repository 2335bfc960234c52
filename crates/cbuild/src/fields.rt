ghost use Rattle.std.specs.Prelude.{◌≡◌, IfOk};
ghost use Rattle.cevents.specs.Building.{built};
ghost use Rattle.cevents.specs.Workshop.{left_by};

use crate::builder::Builder;
use crate::texts::{appended, text_at};
use cbase::{Enumerator, FieldDecl, FieldName, List, NoMemory};
use cevents::{Event, Piece, place_at};
use cgrammar::Terminal;

impl Builder {
    /// No declarators of fields yet.
    pub(crate) fn no_field_names(&mut self, row: &[Terminal<'_>]) -> Result<bool, NoMemory>
        ensures { IfOk result (λ made. left_by made self.new ≡ built row.now Event.NoFieldNames self.old.count self.old.pieces) }
    {
        self.put(Piece::FieldNames(List::new(self.alloc)))
    }

    /// One more field.
    pub(crate) fn field(
        &mut self,
        row: &[Terminal<'_>],
        name: u32,
        stars: u32,
    ) -> Result<bool, NoMemory>
        ensures { IfOk result (λ made. left_by made self.new ≡ built row.now (Event.Field name stars) self.old.count self.old.pieces) }
    {
        let place = place_at(row, name);
        let name = text_at(self.alloc, row, name)?;
        let Some(sizes) = self.pop_sizes() else {
            return Ok(false);
        };
        let Some(names) = self.pop_field_names() else {
            return Ok(false);
        };
        let field = FieldName {
            place,
            name: Some(name),
            stars,
            sizes,
            bits: None,
        };
        let longer = appended(names, field)?;
        self.put(Piece::FieldNames(longer))
    }

    /// One more field of bits.
    pub(crate) fn bit_field(
        &mut self,
        row: &[Terminal<'_>],
        name: u32,
        stars: u32,
    ) -> Result<bool, NoMemory>
        ensures { IfOk result (λ made. left_by made self.new ≡ built row.now (Event.BitField name stars) self.old.count self.old.pieces) }
    {
        let place = place_at(row, name);
        let name = text_at(self.alloc, row, name)?;
        let Some(bits) = self.pop_expr() else {
            return Ok(false);
        };
        let Some(sizes) = self.pop_sizes() else {
            return Ok(false);
        };
        let Some(names) = self.pop_field_names() else {
            return Ok(false);
        };
        let field = FieldName {
            place,
            name: Some(name),
            stars,
            sizes,
            bits: Some(bits.into_inner()),
        };
        let longer = appended(names, field)?;
        self.put(Piece::FieldNames(longer))
    }

    /// One more field of bits without a name.
    pub(crate) fn padding(&mut self, row: &[Terminal<'_>], colon: u32) -> Result<bool, NoMemory>
        ensures { IfOk result (λ made. left_by made self.new ≡ built row.now (Event.Padding colon) self.old.count self.old.pieces) }
    {
        let place = place_at(row, colon);
        let Some(bits) = self.pop_expr() else {
            return Ok(false);
        };
        let Some(names) = self.pop_field_names() else {
            return Ok(false);
        };
        let field = FieldName {
            place,
            name: None,
            stars: 0,
            sizes: List::new(self.alloc),
            bits: Some(bits.into_inner()),
        };
        let longer = appended(names, field)?;
        self.put(Piece::FieldNames(longer))
    }

    /// No declarations of fields yet.
    pub(crate) fn no_fields(&mut self, row: &[Terminal<'_>]) -> Result<bool, NoMemory>
        ensures { IfOk result (λ made. left_by made self.new ≡ built row.now Event.NoFields self.old.count self.old.pieces) }
    {
        self.put(Piece::Fields(List::new(self.alloc)))
    }

    /// One more declaration of fields.
    pub(crate) fn fields(&mut self, row: &[Terminal<'_>]) -> Result<bool, NoMemory>
        ensures { IfOk result (λ made. left_by made self.new ≡ built row.now Event.Fields self.old.count self.old.pieces) }
    {
        let Some(names) = self.pop_field_names() else {
            return Ok(false);
        };
        let Some(spec) = self.pop_type() else {
            return Ok(false);
        };
        let Some(fields) = self.pop_fields() else {
            drop(spec);
            return Ok(false);
        };
        let longer = appended(fields, FieldDecl { spec, names })?;
        self.put(Piece::Fields(longer))
    }

    /// No enumerators yet.
    pub(crate) fn no_enumerators(&mut self, row: &[Terminal<'_>]) -> Result<bool, NoMemory>
        ensures { IfOk result (λ made. left_by made self.new ≡ built row.now Event.NoEnumerators self.old.count self.old.pieces) }
    {
        self.put(Piece::Enumerators(List::new(self.alloc)))
    }

    /// One more enumerator without a value.
    pub(crate) fn enumerator(&mut self, row: &[Terminal<'_>], name: u32) -> Result<bool, NoMemory>
        ensures { IfOk result (λ made. left_by made self.new ≡ built row.now (Event.Enumerator name) self.old.count self.old.pieces) }
    {
        let place = place_at(row, name);
        let name = text_at(self.alloc, row, name)?;
        let Some(values) = self.pop_enumerators() else {
            return Ok(false);
        };
        let longer = appended(
            values,
            Enumerator {
                place,
                name,
                value: None,
            },
        )?;
        self.put(Piece::Enumerators(longer))
    }

    /// One more enumerator with its value.
    pub(crate) fn enumerator_value(
        &mut self,
        row: &[Terminal<'_>],
        name: u32,
    ) -> Result<bool, NoMemory>
        ensures { IfOk result (λ made. left_by made self.new ≡ built row.now (Event.EnumeratorValue name) self.old.count self.old.pieces) }
    {
        let place = place_at(row, name);
        let name = text_at(self.alloc, row, name)?;
        let Some(value) = self.pop_expr() else {
            return Ok(false);
        };
        let Some(values) = self.pop_enumerators() else {
            return Ok(false);
        };
        let longer = appended(
            values,
            Enumerator {
                place,
                name,
                value: Some(value.into_inner()),
            },
        )?;
        self.put(Piece::Enumerators(longer))
    }
}
