//! The expressions and blocks at tokens of a text, in the scope of a file in which `T` is a typedef.
ghost use Rattle.ctokens.specs.InText.{LieInText};
ghost use Rattle.ctokens.specs.TokenList.{AreNumbered};

use crate::printing::{counted, push_row};
use cbase::{BinaryOp, Boxed, Expr, ExprForm, NoMemory};
use cbuild::{let_go_of_expression, let_go_of_statements};
use cread_expr::{ReadBlock, ReadExpr, Scope, read_block, read_expr};
use ctokens::Tokens;
use std::alloc::Global;

/// The expression at a token, where a typedef is put into an empty scope.
fn read_expression(
    alloc: Global,
    t: &Tokens,
    scope: &mut Scope,
    at: u32,
) -> Result<Option<ReadExpr>, NoMemory>
    requires text { LieInText t.now }
    requires numbered { AreNumbered t.now.list }
{
    scope.declare(alloc, b"T", true)?;
    read_expr(alloc, t, scope, at)
}

/// The left operand of a difference.
fn left_of(expr: &Expr) -> Option<&Boxed<Expr>> {
    match &expr.form {
        ExprForm::Binary {
            op: BinaryOp::Sub,
            left,
            right: _,
        } => Some(left),
        _ => None,
    }
}

/// Whether an expression is a difference of a difference and another.
fn is_difference_to_the_left(expr: &Expr) -> bool {
    match left_of(expr) {
        Some(left) => left_of(left.get()).is_some(),
        None => false,
    }
}

/// Behind which token the longest expression at a token ends, or 0, and 1 or 0 for whether it is a difference of a difference and another.
pub fn expression(alloc: Global, t: &Tokens, at: u32, shown: &mut String) -> Result<(), NoMemory>
    requires text { LieInText t.now }
    requires numbered { AreNumbered t.now.list }
{
    let mut scope = Scope::new(alloc)?;
    let read = read_expression(alloc, t, &mut scope, at);
    drop(scope);
    match read {
        Ok(Some(read)) => {
            let numbers = [read.after, u32::from(is_difference_to_the_left(&read.expr))];
            let_go_of_expression(read.expr);
            push_row("", &numbers, shown)
        }
        Ok(None) => push_row("", &[0, 0], shown),
        Err(error) => Err(error),
    }
}

/// The block at a token, where a typedef is put into an empty scope.
fn read_statements(
    alloc: Global,
    t: &Tokens,
    scope: &mut Scope,
    at: u32,
) -> Result<Option<ReadBlock>, NoMemory>
    requires text { LieInText t.now }
    requires numbered { AreNumbered t.now.list }
{
    scope.declare(alloc, b"T", true)?;
    read_block(alloc, t, scope, at)
}

/// Behind which token the block at a token ends, or 0; and how many statements it has, or 0, if `with_count` says so.
pub fn block(
    alloc: Global,
    t: &Tokens,
    at: u32,
    with_count: bool,
    shown: &mut String,
) -> Result<(), NoMemory>
    requires text { LieInText t.now }
    requires numbered { AreNumbered t.now.list }
{
    let mut scope = Scope::new(alloc)?;
    let read = read_statements(alloc, t, &mut scope, at);
    drop(scope);
    match read {
        Ok(Some(read)) => {
            let after = read.after;
            let count = counted(read.body.len());
            let_go_of_statements(read.body);
            show_block(after, count, with_count, shown)
        }
        Ok(None) => show_block(0, 0, with_count, shown),
        Err(error) => Err(error),
    }
}

/// Behind which token a block ends, and how many statements it has, if `with_count` says so.
fn show_block(
    after: u32,
    count: u32,
    with_count: bool,
    shown: &mut String,
) -> Result<(), NoMemory> {
    if with_count {
        push_row("", &[after, count], shown)
    } else {
        push_row("", &[after], shown)
    }
}
