ghost use Rattle.std.specs.Prelude.{◌≡◌, IfOk};
ghost use Rattle.cevents.specs.Building.{built, built_next};
ghost use Rattle.cevents.specs.Workshop.{left_by};

use crate::builder::Builder;
use crate::texts::appended;
use cbase::{Boxed, Expr, List, NoMemory, Stmt, StmtForm};
use cevents::{Event, Piece, place_at};
use cgrammar::Terminal;

/// The expression that is in the box, where there is one.
fn unboxed(expr: Option<Boxed<Expr>>) -> Option<Expr>
    ensures { result ≡ expr }
{
    match expr {
        None => None,
        Some(expr) => Some(expr.into_inner()),
    }
}

impl Builder {
    /// No statements yet.
    pub(crate) fn no_statements(&mut self, row: &[Terminal<'_>]) -> Result<bool, NoMemory>
        ensures { IfOk result (λ made. left_by made self.new ≡ built row.now Event.NoStatements self.old.count self.old.pieces) }
    {
        self.put(Piece::Statements(List::new(self.alloc)))
    }

    /// One more statement.
    pub(crate) fn statement(&mut self, row: &[Terminal<'_>]) -> Result<bool, NoMemory>
        ensures { IfOk result (λ made. left_by made self.new ≡ built row.now Event.Statement self.old.count self.old.pieces) }
    {
        let Some(stmt) = self.pop_statement() else {
            return Ok(false);
        };
        let Some(body) = self.pop_statements() else {
            return Ok(false);
        };
        let longer = appended(body, stmt.into_inner())?;
        self.put(Piece::Statements(longer))
    }

    /// A declaration as a statement.
    pub(crate) fn declare(
        &mut self,
        row: &[Terminal<'_>],
        first: u32,
        last: u32,
    ) -> Result<bool, NoMemory>
        ensures { IfOk result (λ made. left_by made self.new ≡ built row.now (Event.Declare first last) self.old.count self.old.pieces) }
    {
        let Some(decl) = self.pop_declaration() else {
            return Ok(false);
        };
        self.state(
            place_at(row, first),
            place_at(row, last),
            StmtForm::Declare(decl),
        )
    }

    /// An expression, or nothing, before a `;` (C11 6.8.3).
    pub(crate) fn eval(
        &mut self,
        row: &[Terminal<'_>],
        first: u32,
        last: u32,
    ) -> Result<bool, NoMemory>
        ensures { IfOk result (λ made. left_by made self.new ≡ built row.now (Event.Eval first last) self.old.count self.old.pieces) }
    {
        let Some(expr) = self.pop_maybe() else {
            return Ok(false);
        };
        self.state(
            place_at(row, first),
            place_at(row, last),
            StmtForm::Eval(unboxed(expr)),
        )
    }

    /// An expression before a `;`, as one more statement: what `one_expression`, `eval` and then `statement` make, with no
    /// piece for the expression or the statement in between.
    pub(crate) fn expression_behind(
        &mut self,
        row: &[Terminal<'_>],
        first: u32,
        last: u32,
    ) -> Result<bool, NoMemory>
        ensures { IfOk result (λ made. left_by made self.new ≡ built_next row.now Event.Statement (built_next row.now (Event.Eval first last) (built row.now Event.OneExpression self.old.count self.old.pieces))) }
    {
        let Some(expr) = self.pop_expr() else {
            return Ok(false);
        };
        let Some(body) = self.pop_statements() else {
            drop(expr);
            return Ok(false);
        };
        let stmt = Stmt {
            place: place_at(row, first),
            after: place_at(row, last),
            form: StmtForm::Eval(Some(expr.into_inner())),
        };
        let longer = appended(body, stmt)?;
        self.put(Piece::Statements(longer))
    }

    /// A block (C11 6.8.2).
    pub(crate) fn block(
        &mut self,
        row: &[Terminal<'_>],
        first: u32,
        last: u32,
    ) -> Result<bool, NoMemory>
        ensures { IfOk result (λ made. left_by made self.new ≡ built row.now (Event.Block first last) self.old.count self.old.pieces) }
    {
        let Some(body) = self.pop_statements() else {
            return Ok(false);
        };
        self.state(
            place_at(row, first),
            place_at(row, last),
            StmtForm::Block(body),
        )
    }

    /// `if` without `else` (C11 6.8.4.1).
    pub(crate) fn if_alone(
        &mut self,
        row: &[Terminal<'_>],
        first: u32,
        close: u32,
    ) -> Result<bool, NoMemory>
        ensures { IfOk result (λ made. left_by made self.new ≡ built row.now (Event.If first close) self.old.count self.old.pieces) }
    {
        let close = place_at(row, close);
        let Some(yes) = self.pop_statement() else {
            return Ok(false);
        };
        let Some(test) = self.pop_expr() else {
            return Ok(false);
        };
        let after = yes.get().after;
        self.state(
            place_at(row, first),
            after,
            StmtForm::If {
                test,
                close,
                yes,
                no: None,
            },
        )
    }

    /// `if` with `else` (C11 6.8.4.1).
    pub(crate) fn if_else(
        &mut self,
        row: &[Terminal<'_>],
        first: u32,
        close: u32,
    ) -> Result<bool, NoMemory>
        ensures { IfOk result (λ made. left_by made self.new ≡ built row.now (Event.IfElse first close) self.old.count self.old.pieces) }
    {
        let close = place_at(row, close);
        let Some(no) = self.pop_statement() else {
            return Ok(false);
        };
        let Some(yes) = self.pop_statement() else {
            return Ok(false);
        };
        let Some(test) = self.pop_expr() else {
            return Ok(false);
        };
        let after = no.get().after;
        self.state(
            place_at(row, first),
            after,
            StmtForm::If {
                test,
                close,
                yes,
                no: Some(no),
            },
        )
    }

    /// `while` (C11 6.8.5.1).
    pub(crate) fn while_loop(
        &mut self,
        row: &[Terminal<'_>],
        first: u32,
        close: u32,
    ) -> Result<bool, NoMemory>
        ensures { IfOk result (λ made. left_by made self.new ≡ built row.now (Event.While first close) self.old.count self.old.pieces) }
    {
        let close = place_at(row, close);
        let Some(body) = self.pop_statement() else {
            return Ok(false);
        };
        let Some(test) = self.pop_expr() else {
            return Ok(false);
        };
        let after = body.get().after;
        self.state(
            place_at(row, first),
            after,
            StmtForm::While { test, close, body },
        )
    }

    /// `do` (C11 6.8.5.2).
    pub(crate) fn do_loop(
        &mut self,
        row: &[Terminal<'_>],
        first: u32,
        close: u32,
        last: u32,
    ) -> Result<bool, NoMemory>
        ensures { IfOk result (λ made. left_by made self.new ≡ built row.now (Event.Do first close last) self.old.count self.old.pieces) }
    {
        let close = place_at(row, close);
        let Some(test) = self.pop_expr() else {
            return Ok(false);
        };
        let Some(body) = self.pop_statement() else {
            return Ok(false);
        };
        self.state(
            place_at(row, first),
            place_at(row, last),
            StmtForm::Do { body, test, close },
        )
    }

    /// `for` (C11 6.8.5.3).
    pub(crate) fn for_loop(
        &mut self,
        row: &[Terminal<'_>],
        first: u32,
        semicolon: u32,
        close: u32,
    ) -> Result<bool, NoMemory>
        ensures { IfOk result (λ made. left_by made self.new ≡ built row.now (Event.For first semicolon close) self.old.count self.old.pieces) }
    {
        let semicolon = place_at(row, semicolon);
        let close = place_at(row, close);
        let Some(body) = self.pop_statement() else {
            return Ok(false);
        };
        let Some(next) = self.pop_maybe() else {
            return Ok(false);
        };
        let Some(test) = self.pop_maybe() else {
            drop(next);
            return Ok(false);
        };
        let Some(clause) = self.pop_statement() else {
            drop(next);
            drop(test);
            return Ok(false);
        };
        let after = body.get().after;
        self.state(
            place_at(row, first),
            after,
            StmtForm::For {
                first: clause,
                test,
                semicolon,
                next,
                close,
                body,
            },
        )
    }

    /// `break` (C11 6.8.6.3).
    pub(crate) fn break_out(
        &mut self,
        row: &[Terminal<'_>],
        first: u32,
        last: u32,
    ) -> Result<bool, NoMemory>
        ensures { IfOk result (λ made. left_by made self.new ≡ built row.now (Event.Break first last) self.old.count self.old.pieces) }
    {
        self.state(place_at(row, first), place_at(row, last), StmtForm::Break)
    }

    /// `continue` (C11 6.8.6.2).
    pub(crate) fn continue_on(
        &mut self,
        row: &[Terminal<'_>],
        first: u32,
        last: u32,
    ) -> Result<bool, NoMemory>
        ensures { IfOk result (λ made. left_by made self.new ≡ built row.now (Event.Continue first last) self.old.count self.old.pieces) }
    {
        self.state(
            place_at(row, first),
            place_at(row, last),
            StmtForm::Continue,
        )
    }

    /// `return` (C11 6.8.6.4).
    pub(crate) fn give_back(
        &mut self,
        row: &[Terminal<'_>],
        first: u32,
        last: u32,
    ) -> Result<bool, NoMemory>
        ensures { IfOk result (λ made. left_by made self.new ≡ built row.now (Event.Return first last) self.old.count self.old.pieces) }
    {
        let Some(value) = self.pop_maybe() else {
            return Ok(false);
        };
        self.state(
            place_at(row, first),
            place_at(row, last),
            StmtForm::Return(value),
        )
    }
}
