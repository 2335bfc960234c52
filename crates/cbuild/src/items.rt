ghost use Rattle.std.specs.Prelude.{◌≡◌, IfOk};
ghost use Rattle.cevents.specs.Building.{built};
ghost use Rattle.cevents.specs.Workshop.{left_by};

use crate::builder::Builder;
use cbase::{Item, NoMemory, Storage};
use cevents::{Event, place_at};
use cgrammar::Terminal;

impl Builder {
    /// A `;` as an item of a file.
    pub(crate) fn empty_item(&mut self, row: &[Terminal<'_>]) -> Result<bool, NoMemory>
        ensures { IfOk result (λ made. left_by made self.new ≡ built row.now Event.EmptyItem self.old.count self.old.pieces) }
    {
        self.put_item(Item::Empty)
    }

    /// A declaration as an item of a file (C11 6.9).
    pub(crate) fn declare_item(&mut self, row: &[Terminal<'_>]) -> Result<bool, NoMemory>
        ensures { IfOk result (λ made. left_by made self.new ≡ built row.now Event.DeclareItem self.old.count self.old.pieces) }
    {
        let Some(decl) = self.pop_declaration() else {
            return Ok(false);
        };
        self.put_item(Item::Declare(decl.into_inner()))
    }

    /// A function's definition (C11 6.9.1).
    pub(crate) fn function_item(
        &mut self,
        row: &[Terminal<'_>],
        storage: Storage,
        close: u32,
    ) -> Result<bool, NoMemory>
        ensures { IfOk result (λ made. left_by made self.new ≡ built row.now (Event.FunctionItem storage close) self.old.count self.old.pieces) }
    {
        let close = place_at(row, close);
        let Some(body) = self.pop_statements() else {
            return Ok(false);
        };
        let Some(head) = self.pop_declarator() else {
            return Ok(false);
        };
        let Some(spec) = self.pop_type() else {
            drop(head);
            return Ok(false);
        };
        self.put_item(Item::Function {
            spec,
            storage,
            head,
            body,
            close,
        })
    }
}
