ghost use Rattle.std.specs.Prelude.{◌≡◌, IfOk};
ghost use Rattle.cevents.specs.Building.{built};
ghost use Rattle.cevents.specs.Workshop.{left_by};

use crate::builder::Builder;
use crate::texts::{identifier_at, text_at};
use cbase::{BinaryOp, Boxed, ExprForm, NoMemory, UnaryOp};
use cevents::{Event, place_at};
use cgrammar::Terminal;

impl Builder {
    /// An identifier as an expression (C11 6.5.1).
    pub(crate) fn name(&mut self, row: &[Terminal<'_>], at: u32) -> Result<bool, NoMemory>
        ensures { IfOk result (λ made. left_by made self.new ≡ built row.now (Event.Name at) self.old.count self.old.pieces) }
    {
        let name = text_at(self.alloc, row, at)?;
        self.express(place_at(row, at), ExprForm::Name(name))
    }

    /// A constant (C11 6.4.4).
    pub(crate) fn constant(&mut self, row: &[Terminal<'_>], at: u32) -> Result<bool, NoMemory>
        ensures { IfOk result (λ made. left_by made self.new ≡ built row.now (Event.Constant at) self.old.count self.old.pieces) }
    {
        let spelling = text_at(self.alloc, row, at)?;
        self.express(place_at(row, at), ExprForm::Constant(spelling))
    }

    /// A call of `__assert_fail`.
    pub(crate) fn assert_fail(&mut self, row: &[Terminal<'_>], at: u32) -> Result<bool, NoMemory>
        ensures { IfOk result (λ made. left_by made self.new ≡ built row.now (Event.AssertFail at) self.old.count self.old.pieces) }
    {
        self.express(place_at(row, at), ExprForm::AssertFail)
    }

    /// A prefix operator (C11 6.5.3).
    pub(crate) fn unary(
        &mut self,
        row: &[Terminal<'_>],
        op: UnaryOp,
        at: u32,
    ) -> Result<bool, NoMemory>
        ensures { IfOk result (λ made. left_by made self.new ≡ built row.now (Event.Unary op at) self.old.count self.old.pieces) }
    {
        let Some(arg) = self.pop_expr() else {
            return Ok(false);
        };
        self.express(place_at(row, at), ExprForm::Unary { op, arg })
    }

    /// `++` or `--` (C11 6.5.2.4, 6.5.3.1).
    pub(crate) fn step(
        &mut self,
        row: &[Terminal<'_>],
        up: bool,
        after: bool,
        at: u32,
    ) -> Result<bool, NoMemory>
        ensures { IfOk result (λ made. left_by made self.new ≡ built row.now (Event.Count up after at) self.old.count self.old.pieces) }
    {
        let Some(arg) = self.pop_expr() else {
            return Ok(false);
        };
        self.express(place_at(row, at), ExprForm::Count { up, after, arg })
    }

    /// `sizeof` of an expression (C11 6.5.3.4).
    pub(crate) fn size_of(&mut self, row: &[Terminal<'_>], at: u32) -> Result<bool, NoMemory>
        ensures { IfOk result (λ made. left_by made self.new ≡ built row.now (Event.SizeOf at) self.old.count self.old.pieces) }
    {
        let Some(arg) = self.pop_expr() else {
            return Ok(false);
        };
        self.express(place_at(row, at), ExprForm::SizeOf(arg))
    }

    /// `sizeof` of a type (C11 6.5.3.4).
    pub(crate) fn size_of_type(&mut self, row: &[Terminal<'_>], at: u32) -> Result<bool, NoMemory>
        ensures { IfOk result (λ made. left_by made self.new ≡ built row.now (Event.SizeOfType at) self.old.count self.old.pieces) }
    {
        let Some(to) = self.pop_type_name() else {
            return Ok(false);
        };
        self.express(place_at(row, at), ExprForm::SizeOfType(to))
    }

    /// `__builtin_offsetof` of a member of a type.
    pub(crate) fn offset_of(&mut self, row: &[Terminal<'_>], at: u32) -> Result<bool, NoMemory>
        ensures { IfOk result (λ made. left_by made self.new ≡ built row.now (Event.OffsetOf at) self.old.count self.old.pieces) }
    {
        let Some(path) = self.pop_path() else {
            return Ok(false);
        };
        let Some(to) = self.pop_type_name() else {
            return Ok(false);
        };
        self.express(place_at(row, at), ExprForm::OffsetOf { to, path })
    }

    /// A cast (C11 6.5.4).
    pub(crate) fn cast(&mut self, row: &[Terminal<'_>], at: u32) -> Result<bool, NoMemory>
        ensures { IfOk result (λ made. left_by made self.new ≡ built row.now (Event.Cast at) self.old.count self.old.pieces) }
    {
        let Some(arg) = self.pop_expr() else {
            return Ok(false);
        };
        let Some(to) = self.pop_type_name() else {
            return Ok(false);
        };
        self.express(place_at(row, at), ExprForm::Cast { to, arg })
    }

    /// An item of an array (C11 6.5.2.1).
    pub(crate) fn index(&mut self, row: &[Terminal<'_>], at: u32) -> Result<bool, NoMemory>
        ensures { IfOk result (λ made. left_by made self.new ≡ built row.now (Event.Index at) self.old.count self.old.pieces) }
    {
        let Some(index) = self.pop_expr() else {
            return Ok(false);
        };
        let Some(base) = self.pop_expr() else {
            return Ok(false);
        };
        self.express(place_at(row, at), ExprForm::Index { base, index })
    }

    /// A member (C11 6.5.2.3).
    pub(crate) fn member(
        &mut self,
        row: &[Terminal<'_>],
        through: bool,
        at: u32,
        name: u32,
    ) -> Result<bool, NoMemory>
        ensures { IfOk result (λ made. left_by made self.new ≡ built row.now (Event.Member through at name) self.old.count self.old.pieces) }
    {
        let member = Boxed::new(self.alloc, identifier_at(self.alloc, row, name)?)?;
        let Some(base) = self.pop_expr() else {
            return Ok(false);
        };
        self.express(
            place_at(row, at),
            ExprForm::Member {
                base,
                name: member,
                through,
            },
        )
    }

    /// A call (C11 6.5.2.2).
    pub(crate) fn call(&mut self, row: &[Terminal<'_>], at: u32) -> Result<bool, NoMemory>
        ensures { IfOk result (λ made. left_by made self.new ≡ built row.now (Event.Call at) self.old.count self.old.pieces) }
    {
        let Some(args) = self.pop_arguments() else {
            return Ok(false);
        };
        let Some(callee) = self.pop_expr() else {
            return Ok(false);
        };
        self.express(place_at(row, at), ExprForm::Call { callee, args })
    }

    /// A statement expression.
    pub(crate) fn inner(
        &mut self,
        row: &[Terminal<'_>],
        at: u32,
        close: u32,
    ) -> Result<bool, NoMemory>
        ensures { IfOk result (λ made. left_by made self.new ≡ built row.now (Event.Inner at close) self.old.count self.old.pieces) }
    {
        let close = place_at(row, close);
        let Some(body) = self.pop_statements() else {
            return Ok(false);
        };
        self.express(place_at(row, at), ExprForm::Inner { body, close })
    }

    /// A binary operator (C11 6.5.5 to 6.5.14, 6.5.17).
    pub(crate) fn binary(
        &mut self,
        row: &[Terminal<'_>],
        op: BinaryOp,
        at: u32,
    ) -> Result<bool, NoMemory>
        ensures { IfOk result (λ made. left_by made self.new ≡ built row.now (Event.Binary op at) self.old.count self.old.pieces) }
    {
        let Some(right) = self.pop_expr() else {
            return Ok(false);
        };
        let Some(left) = self.pop_expr() else {
            return Ok(false);
        };
        self.express(place_at(row, at), ExprForm::Binary { op, left, right })
    }

    /// An assignment (C11 6.5.16).
    pub(crate) fn assign(
        &mut self,
        row: &[Terminal<'_>],
        op: Option<BinaryOp>,
        at: u32,
    ) -> Result<bool, NoMemory>
        ensures { IfOk result (λ made. left_by made self.new ≡ built row.now (Event.Assign op at) self.old.count self.old.pieces) }
    {
        let Some(right) = self.pop_expr() else {
            return Ok(false);
        };
        let Some(left) = self.pop_expr() else {
            return Ok(false);
        };
        self.express(place_at(row, at), ExprForm::Assign { op, left, right })
    }

    /// `?` and `:` (C11 6.5.15).
    pub(crate) fn choose(&mut self, row: &[Terminal<'_>], at: u32) -> Result<bool, NoMemory>
        ensures { IfOk result (λ made. left_by made self.new ≡ built row.now (Event.Choose at) self.old.count self.old.pieces) }
    {
        let Some(no) = self.pop_expr() else {
            return Ok(false);
        };
        let Some(yes) = self.pop_expr() else {
            return Ok(false);
        };
        let Some(test) = self.pop_expr() else {
            return Ok(false);
        };
        self.express(place_at(row, at), ExprForm::Choose { test, yes, no })
    }
}
