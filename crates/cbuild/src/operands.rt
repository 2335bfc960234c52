ghost use Rattle.std.specs.Prelude.{◌≡◌, IfOk};
ghost use Rattle.cevents.specs.Building.{built};
ghost use Rattle.cevents.specs.Workshop.{left_by};

use crate::builder::Builder;
use crate::texts::{appended, identifier_at, list_of_one, maybe_identifier_at};
use cbase::{Init, InitPart, List, NoMemory, Part};
use cevents::{Event, Piece, place_at};
use cgrammar::Terminal;

impl Builder {
    /// No arguments yet.
    pub(crate) fn no_arguments(&mut self, row: &[Terminal<'_>]) -> Result<bool, NoMemory>
        ensures { IfOk result (λ made. left_by made self.new ≡ built row.now Event.NoArguments self.old.count self.old.pieces) }
    {
        self.put(Piece::Arguments(List::new(self.alloc)))
    }

    /// One more argument.
    pub(crate) fn argument(&mut self, row: &[Terminal<'_>]) -> Result<bool, NoMemory>
        ensures { IfOk result (λ made. left_by made self.new ≡ built row.now Event.Argument self.old.count self.old.pieces) }
    {
        let Some(argument) = self.pop_expr() else {
            return Ok(false);
        };
        let Some(arguments) = self.pop_arguments() else {
            return Ok(false);
        };
        let longer = appended(arguments, argument.into_inner())?;
        self.put(Piece::Arguments(longer))
    }

    /// A path with one member.
    pub(crate) fn path(&mut self, row: &[Terminal<'_>], name: u32) -> Result<bool, NoMemory>
        ensures { IfOk result (λ made. left_by made self.new ≡ built row.now (Event.Path name) self.old.count self.old.pieces) }
    {
        let name = identifier_at(self.alloc, row, name)?;
        let path = list_of_one(self.alloc, Part::Member(name))?;
        self.put(Piece::Path(path))
    }

    /// One more member of a path.
    pub(crate) fn path_member(&mut self, row: &[Terminal<'_>], name: u32) -> Result<bool, NoMemory>
        ensures { IfOk result (λ made. left_by made self.new ≡ built row.now (Event.PathMember name) self.old.count self.old.pieces) }
    {
        let name = identifier_at(self.alloc, row, name)?;
        let Some(path) = self.pop_path() else {
            return Ok(false);
        };
        let longer = appended(path, Part::Member(name))?;
        self.put(Piece::Path(longer))
    }

    /// One more index of a path.
    pub(crate) fn path_index(&mut self, row: &[Terminal<'_>]) -> Result<bool, NoMemory>
        ensures { IfOk result (λ made. left_by made self.new ≡ built row.now Event.PathIndex self.old.count self.old.pieces) }
    {
        let Some(index) = self.pop_expr() else {
            return Ok(false);
        };
        let Some(path) = self.pop_path() else {
            return Ok(false);
        };
        let longer = appended(path, Part::At(index.into_inner()))?;
        self.put(Piece::Path(longer))
    }

    /// An expression as an initialiser (C11 6.7.9).
    pub(crate) fn value(&mut self, row: &[Terminal<'_>], after: u32) -> Result<bool, NoMemory>
        ensures { IfOk result (λ made. left_by made self.new ≡ built row.now (Event.Value after) self.old.count self.old.pieces) }
    {
        let after = place_at(row, after);
        let Some(value) = self.pop_expr() else {
            return Ok(false);
        };
        self.put_init(Init::Value {
            value: value.into_inner(),
            after,
        })
    }

    /// No parts of an initialiser yet.
    pub(crate) fn no_parts(&mut self, row: &[Terminal<'_>]) -> Result<bool, NoMemory>
        ensures { IfOk result (λ made. left_by made self.new ≡ built row.now Event.NoParts self.old.count self.old.pieces) }
    {
        self.put(Piece::Parts(List::new(self.alloc)))
    }

    /// One more part of an initialiser.
    pub(crate) fn part(
        &mut self,
        row: &[Terminal<'_>],
        member: Option<u32>,
    ) -> Result<bool, NoMemory>
        ensures { IfOk result (λ made. left_by made self.new ≡ built row.now (Event.Part member) self.old.count self.old.pieces) }
    {
        let member = maybe_identifier_at(self.alloc, row, member)?;
        let Some(init) = self.pop_init() else {
            return Ok(false);
        };
        let Some(parts) = self.pop_parts() else {
            drop(init);
            return Ok(false);
        };
        let longer = appended(parts, InitPart { member, init })?;
        self.put(Piece::Parts(longer))
    }

    /// Parts in braces as an initialiser (C11 6.7.9).
    pub(crate) fn braces(&mut self, row: &[Terminal<'_>]) -> Result<bool, NoMemory>
        ensures { IfOk result (λ made. left_by made self.new ≡ built row.now Event.Braces self.old.count self.old.pieces) }
    {
        let Some(parts) = self.pop_parts() else {
            return Ok(false);
        };
        self.put_init(Init::Braces(parts))
    }

    /// No expression, where there may be one.
    pub(crate) fn no_expression(&mut self, row: &[Terminal<'_>]) -> Result<bool, NoMemory>
        ensures { IfOk result (λ made. left_by made self.new ≡ built row.now Event.NoExpression self.old.count self.old.pieces) }
    {
        self.put(Piece::Maybe(None))
    }

    /// An expression, where there may be one.
    pub(crate) fn one_expression(&mut self, row: &[Terminal<'_>]) -> Result<bool, NoMemory>
        ensures { IfOk result (λ made. left_by made self.new ≡ built row.now Event.OneExpression self.old.count self.old.pieces) }
    {
        let Some(expr) = self.pop_expr() else {
            return Ok(false);
        };
        self.put(Piece::Maybe(Some(expr)))
    }
}
