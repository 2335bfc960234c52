//! Lists of parts, put in front of those that are still to be looked at.
ghost use Rattle.std.specs.Prelude.{◌≡◌, ◌++◌, map, OnOk};
ghost use Rattle.c_machine.specs.Statics.{AnExpr, AStmt, in_sizes};

use crate::statics::node::Nodes;
use crate::statics::parts::single::{push_expr, push_optional, push_stmt};
use cbase::{Expr, NoMemory, Stmt};

/// Expressions.
pub fn push_exprs<'a>(nodes: &mut Nodes<'a>, exprs: &'a [Expr]) -> Result<(), NoMemory>
    ensures { OnOk result (nodes.new ≡ map AnExpr exprs.now ++ nodes.old) }
{
    let mut left = exprs.len();
    while left > 0 {
        left -= 1;
        push_expr(nodes, &exprs[left])?;
    }
    Ok(())
}

/// Statements.
pub fn push_stmts<'a>(nodes: &mut Nodes<'a>, stmts: &'a [Stmt]) -> Result<(), NoMemory>
    ensures { OnOk result (nodes.new ≡ map AStmt stmts.now ++ nodes.old) }
{
    let mut left = stmts.len();
    while left > 0 {
        left -= 1;
        push_stmt(nodes, &stmts[left])?;
    }
    Ok(())
}

/// The sizes of arrays.
pub fn push_sizes<'a>(nodes: &mut Nodes<'a>, sizes: &'a [Option<Expr>]) -> Result<(), NoMemory>
    ensures { OnOk result (nodes.new ≡ in_sizes sizes.now ++ nodes.old) }
{
    let mut left = sizes.len();
    while left > 0 {
        left -= 1;
        push_optional(nodes, &sizes[left])?;
    }
    Ok(())
}
