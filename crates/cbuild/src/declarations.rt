ghost use Rattle.std.specs.Prelude.{◌≡◌, IfOk};
ghost use Rattle.cevents.specs.Building.{built};
ghost use Rattle.cevents.specs.Workshop.{left_by};

use crate::builder::Builder;
use crate::texts::{appended, maybe_identifier_at, text_at};
use cbase::{Boxed, Decl, Declared, List, NoMemory, Param, Storage};
use cevents::{Event, Piece, place_at};
use cgrammar::Terminal;

impl Builder {
    /// No parameters yet.
    pub(crate) fn no_parameters(&mut self, row: &[Terminal<'_>]) -> Result<bool, NoMemory>
        ensures { IfOk result (λ made. left_by made self.new ≡ built row.now Event.NoParameters self.old.count self.old.pieces) }
    {
        self.put(Piece::Parameters(List::new(self.alloc)))
    }

    /// One more parameter (C11 6.7.6.3).
    pub(crate) fn parameter(
        &mut self,
        row: &[Terminal<'_>],
        name: Option<u32>,
        stars: u32,
    ) -> Result<bool, NoMemory>
        ensures { IfOk result (λ made. left_by made self.new ≡ built row.now (Event.Parameter name stars) self.old.count self.old.pieces) }
    {
        let name = maybe_identifier_at(self.alloc, row, name)?;
        let Some(sizes) = self.pop_sizes() else {
            return Ok(false);
        };
        let Some(spec) = self.pop_type() else {
            return Ok(false);
        };
        let Some(params) = self.pop_parameters() else {
            drop(spec);
            return Ok(false);
        };
        let longer = appended(
            params,
            Param {
                spec,
                stars,
                name,
                sizes,
            },
        )?;
        self.put(Piece::Parameters(longer))
    }

    /// No declarators yet.
    pub(crate) fn no_declarators(&mut self, row: &[Terminal<'_>]) -> Result<bool, NoMemory>
        ensures { IfOk result (λ made. left_by made self.new ≡ built row.now Event.NoDeclarators self.old.count self.old.pieces) }
    {
        self.put(Piece::Declarators(List::new(self.alloc)))
    }

    /// One more object (C11 6.7.6).
    pub(crate) fn object(
        &mut self,
        row: &[Terminal<'_>],
        name: u32,
        stars: u32,
    ) -> Result<bool, NoMemory>
        ensures { IfOk result (λ made. left_by made self.new ≡ built row.now (Event.Object name stars) self.old.count self.old.pieces) }
    {
        let place = place_at(row, name);
        let name = text_at(self.alloc, row, name)?;
        let Some(sizes) = self.pop_sizes() else {
            return Ok(false);
        };
        let Some(names) = self.pop_declarators() else {
            return Ok(false);
        };
        let declared = Declared {
            place,
            name,
            stars,
            sizes,
            params: None,
            init: None,
        };
        let longer = appended(names, declared)?;
        self.put(Piece::Declarators(longer))
    }

    /// One more object with its initialiser.
    pub(crate) fn initialized_object(
        &mut self,
        row: &[Terminal<'_>],
        name: u32,
        stars: u32,
    ) -> Result<bool, NoMemory>
        ensures { IfOk result (λ made. left_by made self.new ≡ built row.now (Event.InitializedObject name stars) self.old.count self.old.pieces) }
    {
        let place = place_at(row, name);
        let name = text_at(self.alloc, row, name)?;
        let Some(init) = self.pop_init() else {
            return Ok(false);
        };
        let Some(sizes) = self.pop_sizes() else {
            drop(init);
            return Ok(false);
        };
        let Some(names) = self.pop_declarators() else {
            drop(init);
            return Ok(false);
        };
        let declared = Declared {
            place,
            name,
            stars,
            sizes,
            params: None,
            init: Some(init),
        };
        let longer = appended(names, declared)?;
        self.put(Piece::Declarators(longer))
    }

    /// One more function (C11 6.7.6.3).
    pub(crate) fn function(
        &mut self,
        row: &[Terminal<'_>],
        name: u32,
        stars: u32,
    ) -> Result<bool, NoMemory>
        ensures { IfOk result (λ made. left_by made self.new ≡ built row.now (Event.Function name stars) self.old.count self.old.pieces) }
    {
        let place = place_at(row, name);
        let name = text_at(self.alloc, row, name)?;
        let Some(params) = self.pop_parameters() else {
            return Ok(false);
        };
        let Some(names) = self.pop_declarators() else {
            return Ok(false);
        };
        let declared = Declared {
            place,
            name,
            stars,
            sizes: List::new(self.alloc),
            params: Some(params),
            init: None,
        };
        let longer = appended(names, declared)?;
        self.put(Piece::Declarators(longer))
    }

    /// A declaration (C11 6.7).
    pub(crate) fn declaration(
        &mut self,
        row: &[Terminal<'_>],
        storage: Storage,
    ) -> Result<bool, NoMemory>
        ensures { IfOk result (λ made. left_by made self.new ≡ built row.now (Event.Declaration storage) self.old.count self.old.pieces) }
    {
        let Some(names) = self.pop_declarators() else {
            return Ok(false);
        };
        let Some(spec) = self.pop_type() else {
            return Ok(false);
        };
        let tree = Boxed::new(
            self.alloc,
            Decl {
                storage,
                spec,
                names,
            },
        )?;
        self.put(Piece::Declaration(tree))
    }
}
