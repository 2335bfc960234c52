ghost use Rattle.std.specs.Prelude.{◌≡◌, IfOk, Some, None};
ghost use Rattle.cevents.specs.Building.{built_all};
ghost use Rattle.cevents.specs.Workshop.{block_alone, expr_alone, start};

use crate::builder::Builder;
use crate::unbuilt::Unbuilt;
use cbase::{Expr, List, NoMemory, Stmt};
use cevents::Event;
use cgrammar::Terminal;
use std::alloc::Global;

/// The expression that the events make of a row, alone and of nothing.
///
/// `Wrong` is for events that make anything else, or nothing.
pub fn build_expr(alloc: Global, row: &[Terminal<'_>], events: &[Event]) -> Result<Expr, Unbuilt>
    ensures expr { IfOk result (λ expr. expr_alone (built_all row.now events.now (Some start)) ≡ Some expr) }
    ensures wrong { result ≡ Err Unbuilt.Wrong → expr_alone (built_all row.now events.now (Some start)) ≡ None }
{
    match expr_alone(alloc, row, events) {
        Err(_) => Err(Unbuilt::NoMemory),
        Ok(None) => Err(Unbuilt::Wrong),
        Ok(Some(expr)) => Ok(expr),
    }
}

/// The statements that the events make of a row, alone and of nothing.
///
/// `Wrong` is for events that make anything else, or nothing.
pub fn build_block(
    alloc: Global,
    row: &[Terminal<'_>],
    events: &[Event],
) -> Result<List<Stmt>, Unbuilt>
    ensures block { IfOk result (λ body. block_alone (built_all row.now events.now (Some start)) ≡ Some body) }
    ensures wrong { result ≡ Err Unbuilt.Wrong → block_alone (built_all row.now events.now (Some start)) ≡ None }
{
    match block_alone(alloc, row, events) {
        Err(_) => Err(Unbuilt::NoMemory),
        Ok(None) => Err(Unbuilt::Wrong),
        Ok(Some(body)) => Ok(body),
    }
}

/// The expression, or nothing where the events make no expression that stands alone.
fn expr_alone(
    alloc: Global,
    row: &[Terminal<'_>],
    events: &[Event],
) -> Result<Option<Expr>, NoMemory>
    ensures { IfOk result (λ expr. expr ≡ expr_alone (built_all row.now events.now (Some start))) }
{
    let mut builder = Builder::new(alloc);
    if !builder.build_all(row, events)? {
        return Ok(None);
    }
    Ok(builder.only_expr())
}

/// The statements, or nothing where the events make no statements that stand alone.
fn block_alone(
    alloc: Global,
    row: &[Terminal<'_>],
    events: &[Event],
) -> Result<Option<List<Stmt>>, NoMemory>
    ensures { IfOk result (λ body. body ≡ block_alone (built_all row.now events.now (Some start))) }
{
    let mut builder = Builder::new(alloc);
    if !builder.build_all(row, events)? {
        return Ok(None);
    }
    Ok(builder.only_statements())
}
