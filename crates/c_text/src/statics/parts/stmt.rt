//! What stands directly in a statement (C11 6.8).
ghost use Rattle.std.specs.Prelude.{◌≡◌, ◌∷◌, [], ◌++◌, None, Some, OnOk};
ghost use Rattle.cbase.specs.declared.tree.expr.ExprForm.TheViews.{out-StmtForm};
ghost use Rattle.c_machine.specs.Statics.{AnExpr, AStmt, in_clause, optional};
ghost use Rattle.c_text.specs.statics.Nodes.{in_branches};

use crate::statics::node::Nodes;
use crate::statics::parts::list::push_stmts;
use crate::statics::parts::name::push_in_decl;
use crate::statics::parts::single::{push_boxed, push_expr, push_optional, push_stmt};
use cbase::{Boxed, Expr, NoMemory, Stmt, StmtForm};

/// What stands in a statement.
pub fn push_in_stmt<'a>(nodes: &mut Nodes<'a>, stmt: &'a Stmt) -> Result<(), NoMemory>
    ensures { OnOk result (nodes.new ≡ in_clause (out-StmtForm stmt.now.form) ++ nodes.old) }
{
    match &stmt.form {
        StmtForm::Declare(decl) => push_in_decl(nodes, decl.get()),
        StmtForm::Eval(expr) => push_optional(nodes, expr),
        StmtForm::Block(body) => push_stmts(nodes, body.as_slice()),
        StmtForm::If { test, yes, no, .. } => push_branches(nodes, test.get(), yes.get(), no),
        StmtForm::While { test, body, .. } => push_while(nodes, test.get(), body.get()),
        StmtForm::Do { body, test, .. } => push_do(nodes, body.get(), test.get()),
        StmtForm::For {
            first,
            test,
            next,
            body,
            ..
        } => push_for(nodes, first.get(), test, next, body.get()),
        StmtForm::Break => Ok(()),
        StmtForm::Continue => Ok(()),
        StmtForm::Return(value) => push_boxed(nodes, value),
    }
}

/// What stands in an `if` (C11 6.8.4.1).
fn push_branches<'a>(
    nodes: &mut Nodes<'a>,
    test: &'a Expr,
    one: &'a Stmt,
    other: &'a Option<Boxed<Stmt>>,
) -> Result<(), NoMemory>
    ensures { OnOk result (nodes.new ≡ AnExpr test.now ∷ AStmt one.now ∷ in_branches other.now ++ nodes.old) }
{
    push_other(nodes, other)?;
    push_stmt(nodes, one)?;
    push_expr(nodes, test)
}

/// The statement behind `else`, where there is one.
fn push_other<'a>(nodes: &mut Nodes<'a>, other: &'a Option<Boxed<Stmt>>) -> Result<(), NoMemory>
    ensures { OnOk result (nodes.new ≡ in_branches other.now ++ nodes.old) }
{
    match other {
        None => Ok(()),
        Some(other) => push_stmt(nodes, other.get()),
    }
}

/// What stands in a `while` (C11 6.8.5.1).
fn push_while<'a>(nodes: &mut Nodes<'a>, test: &'a Expr, body: &'a Stmt) -> Result<(), NoMemory>
    ensures { OnOk result (nodes.new ≡ AnExpr test.now ∷ AStmt body.now ∷ nodes.old) }
{
    push_stmt(nodes, body)?;
    push_expr(nodes, test)
}

/// What stands in a `do` (C11 6.8.5.2).
fn push_do<'a>(nodes: &mut Nodes<'a>, body: &'a Stmt, test: &'a Expr) -> Result<(), NoMemory>
    ensures { OnOk result (nodes.new ≡ AStmt body.now ∷ AnExpr test.now ∷ nodes.old) }
{
    push_expr(nodes, test)?;
    push_stmt(nodes, body)
}

/// What stands in a `for` (C11 6.8.5.3).
fn push_for<'a>(
    nodes: &mut Nodes<'a>,
    first: &'a Stmt,
    test: &'a Option<Boxed<Expr>>,
    next: &'a Option<Boxed<Expr>>,
    body: &'a Stmt,
) -> Result<(), NoMemory>
    ensures { OnOk result (nodes.new ≡ AStmt first.now ∷ optional test.now ++ (optional next.now ++ AStmt body.now ∷ nodes.old)) }
{
    push_stmt(nodes, body)?;
    push_boxed(nodes, next)?;
    push_boxed(nodes, test)?;
    push_stmt(nodes, first)
}
