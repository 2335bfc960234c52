//! Single parts, put in front of those that are still to be looked at.
ghost use Rattle.std.specs.Prelude.{◌≡◌, ◌∷◌, ◌++◌, OnOk};
ghost use Rattle.c_machine.specs.Statics.{AnExpr, AnInit, AStmt, SomeWords, in_init, optional};

use crate::statics::node::{Node, Nodes};
use cbase::{Boxed, Expr, Init, NoMemory, Stmt, TypeSpec};

/// An expression.
pub fn push_expr<'a>(nodes: &mut Nodes<'a>, expr: &'a Expr) -> Result<(), NoMemory>
    ensures { OnOk result (nodes.new ≡ AnExpr expr.now ∷ nodes.old) }
{
    nodes.push(Node::expr(expr))
}

/// Two expressions.
pub fn push_two<'a>(nodes: &mut Nodes<'a>, one: &'a Expr, other: &'a Expr) -> Result<(), NoMemory>
    ensures { OnOk result (nodes.new ≡ AnExpr one.now ∷ AnExpr other.now ∷ nodes.old) }
{
    push_expr(nodes, other)?;
    push_expr(nodes, one)
}

/// A statement.
pub fn push_stmt<'a>(nodes: &mut Nodes<'a>, stmt: &'a Stmt) -> Result<(), NoMemory>
    ensures { OnOk result (nodes.new ≡ AStmt stmt.now ∷ nodes.old) }
{
    nodes.push(Node::stmt(stmt))
}

/// The words of a type.
pub fn push_words<'a>(nodes: &mut Nodes<'a>, spec: &'a TypeSpec) -> Result<(), NoMemory>
    ensures { OnOk result (nodes.new ≡ SomeWords spec.now ∷ nodes.old) }
{
    nodes.push(Node::words(spec))
}

/// An initialiser.
pub fn push_init<'a>(nodes: &mut Nodes<'a>, init: &'a Init) -> Result<(), NoMemory>
    ensures { OnOk result (nodes.new ≡ AnInit init.now ∷ nodes.old) }
{
    nodes.push(Node::init(init))
}

/// An initialiser, where there is one.
pub fn push_maybe_init<'a>(nodes: &mut Nodes<'a>, init: &'a Option<Init>) -> Result<(), NoMemory>
    ensures { OnOk result (nodes.new ≡ in_init init.now ++ nodes.old) }
{
    match init {
        None => Ok(()),
        Some(init) => push_init(nodes, init),
    }
}

/// An expression, where there is one.
pub fn push_optional<'a>(nodes: &mut Nodes<'a>, expr: &'a Option<Expr>) -> Result<(), NoMemory>
    ensures { OnOk result (nodes.new ≡ optional expr.now ++ nodes.old) }
{
    match expr {
        None => Ok(()),
        Some(expr) => push_expr(nodes, expr),
    }
}

/// The same of one behind a pointer.
pub fn push_boxed<'a>(nodes: &mut Nodes<'a>, expr: &'a Option<Boxed<Expr>>) -> Result<(), NoMemory>
    ensures { OnOk result (nodes.new ≡ optional expr.now ++ nodes.old) }
{
    match expr {
        None => Ok(()),
        Some(expr) => push_expr(nodes, expr.get()),
    }
}
