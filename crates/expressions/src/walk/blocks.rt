ghost use Rattle.std.specs.Prelude.{◌≡◌, ◌≤◌, ◌<◌, ◌∷◌, ℕ, List, length, true, false, All, Some, None, IfOk, IfSome, IfNone};
ghost use Rattle.cbase.specs.declared.abi.Abi.{Abi};
ghost use Rattle.cbase.specs.declared.tree.expr.Expr.{Expr as ExprTree};
ghost use Rattle.cbase.specs.declared.tree.expr.ExprForm.TheOpen.{Inner};
ghost use Rattle.cbase.specs.declared.tree.expr.ExprForm.TheViews.{out-StmtForm};
ghost use Rattle.cbase.specs.declared.place.Place.{Place};
ghost use Rattle.cbase.specs.declared.tree.stmt.Stmt.{Stmt as StmtTree};
ghost use Rattle.ctrees.specs.Levels.{expr_levels, stmt_levels};
ghost use Rattle.typing.specs.Forms.{is_empty, value_in};
ghost use Rattle.typing.specs.Nodes.{are_empty, is_last_value};
ghost use Rattle.typing.specs.Pieces.{Loaded};
ghost use Rattle.typing.specs.Typing.{PieceIs, StatementsAre};
ghost use Rattle.expressions.specs.Context.{Context as AtPlace};
ghost use Rattle.expressions.specs.Found.{an_expression, an_operand, a_value_type};
ghost use Rattle.expressions.specs.Nests.{Nests};
ghost use Rattle.expressions.specs.Walked.{Passed, Walked, Says, SaysForm};

use crate::checker::{Checker, Within};
use crate::context::Context;
use crate::found::Found;
use crate::known::Known;
use crate::nodes::finishing::{Node, pass};
use crate::part::{Part, Told};
use cbase::{Expr, NoMemory, Place, Stmt, StmtForm};
use std::alloc::Global;
use typing::Fault;
use typing::ctypes::Broken;

impl<F: Fn(&mut Context, Within, Part<'_>) -> Result<Found<Told>, NoMemory>> Checker<F> {
    /// A statement expression, which C11 has not: its block is a scope of its own, and it has the type of its value.
    pub(crate) fn statement_expression(
        &self,
        alloc: Global,
        context: &mut Context,
        node: Node,
        body: &[Stmt],
    ) -> Result<Found<Known>, NoMemory>
        requires nests { Nests self.now.abi self.now.depth (F.pre self.now.inner) (F.post self.now.inner) }
        requires deep { All (λ stmt. stmt_levels stmt ≤ self.now.depth) body.now }
        ensures { (close : Place) → IfOk result (λ found. Walked (SaysForm self.now.abi node.number node.place (Inner body.now close)) an_expression context.old context.new found) }
    {
        context.enter(alloc)?;
        let found = match self.statements(context, body) {
            Ok(found) => found,
            Err(error) => return Err(error),
        };
        context.leave();
        match found {
            Found::Passes(ctype) => pass(context, node.number, Known::plain(ctype)),
            Found::Refused(fault) => Ok(Found::Refused(fault)),
        }
    }

    /// Its statements: the value is that of the last one that is not empty, where that is an expression, and else there is none.
    pub fn statements(&self, context: &mut Context, body: &[Stmt]) -> Result<Found<u32>, NoMemory>
        requires nests { Nests self.now.abi self.now.depth (F.pre self.now.inner) (F.post self.now.inner) }
        requires deep { All (λ stmt. stmt_levels stmt ≤ self.now.depth) body.now }
        ensures { IfOk result (λ found. Walked (Says self.now.abi (λ o. StatementsAre body.now o)) a_value_type context.old context.new found) }
    {
        for at in 0..body.len() {
            let stmt = &body[at];
            let rest = &body[at + 1..];
            if let Some(expr) = value_of(stmt, rest) {
                return match self.loaded(context, expr) {
                    Ok(Found::Passes(known)) => value_type(context, expr.place, known),
                    Ok(Found::Refused(fault)) => Ok(Found::Refused(fault)),
                    Err(error) => Err(error),
                };
            }
            match self.ask_statement(context, stmt) {
                Ok(Found::Passes(())) => {}
                Ok(Found::Refused(fault)) => return Ok(Found::Refused(fault)),
                Err(error) => return Err(error),
            }
        }
        match context.void() {
            Ok(ctype) => Ok(Found::Passes(ctype)),
            Err(error) => Err(error),
        }
    }
}

/// The type of the value of a block, of what is known of its last expression: a struct is none, rule 4 at the expression.
fn value_type(context: &mut Context, place: Place, known: Known) -> Result<Found<u32>, NoMemory>
    requires { known.ctype < length context.old.types }
    ensures { (abi : Abi) (stmt : StmtTree) (expr : ExprTree) (rest : List StmtTree) (before : AtPlace) → expr.place ≡ place → value_in (out-StmtForm stmt.form) ≡ Some expr → are_empty rest ≡ true → Passed (Says abi (λ o. PieceIs (Loaded expr) o)) an_operand before context.old known → IfOk result (λ found. Walked (Says abi (λ o. StatementsAre (stmt ∷ rest) o)) a_value_type before context.new found) }
{
    if context.is_struct(known.ctype) {
        return Ok(Found::Refused(Fault {
            place,
            broken: Broken::Rule(4),
        }));
    }
    match context.value_type(known.ctype) {
        Ok(ctype) => Ok(Found::Passes(ctype)),
        Err(error) => Err(error),
    }
}

/// The expression that is a statement, where those behind it are all empty.
fn value_of<'a>(stmt: &'a Stmt, rest: &[Stmt]) -> Option<&'a Expr>
    ensures some { IfSome result (λ expr. (are_empty rest.now ≡ true) × (value_in (out-StmtForm stmt.now.form) ≡ Some expr.now)) }
    ensures levels { IfSome result (λ expr. expr_levels expr.now ≤ stmt_levels stmt.now) }
    ensures none { IfNone result (is_last_value (stmt.now ∷ rest.now) ≡ false) }
{
    match value_in(stmt) {
        Some(expr) => { if are_empty(rest) { Some(expr) } else { None } }
        None => None,
    }
}

/// The expression that is a statement, where it is one.
fn value_in(stmt: &Stmt) -> Option<&Expr>
    ensures some { IfSome result (λ expr. value_in (out-StmtForm stmt.now.form) ≡ Some expr.now) }
    ensures levels { IfSome result (λ expr. expr_levels expr.now ≤ stmt_levels stmt.now) }
    ensures none { IfNone result (value_in (out-StmtForm stmt.now.form) ≡ None) }
{
    match &stmt.form {
        StmtForm::Eval(expr) => match expr {
            Some(expr) => Some(expr),
            None => None,
        },
        _ => None,
    }
}

/// Whether statements are all empty (C11 6.8.3p3).
fn are_empty(stmts: &[Stmt]) -> bool
    ensures { result ≡ are_empty stmts.now }
{
    for stmt in stmts {
        if !is_empty(stmt) {
            return false;
        }
    }
    true
}

/// Whether a statement is empty.
fn is_empty(stmt: &Stmt) -> bool
    ensures { result ≡ is_empty (out-StmtForm stmt.now.form) }
{
    match &stmt.form {
        StmtForm::Eval(expr) => expr.is_none(),
        _ => false,
    }
}
