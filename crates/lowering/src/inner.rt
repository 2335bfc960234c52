//! The block of a statement expression, whose value is that of its last expression statement.
ghost use Rattle.std.specs.Prelude.{◌≡◌, ◌≤◌, ◌∷◌, ◌++◌, length, map, option_map, IfOk, OnOk};
ghost use Rattle.c_machine.specs.Blocks.{is_empty};
ghost use Rattle.c_machine.specs.declared.kind.Kind.TheVariants.{Void};
ghost use Rattle.lowering.specs.Inner.{AreLastMoves, AreValuedMoves, IsLeftAtEnd, until_last, wanted_of};
ghost use Rattle.lowering.specs.Moves.{Does};
ghost use Rattle.lowering.specs.Table.{ending, last_of};
ghost use Rattle.lowering.specs.Told.{trees};

use crate::kinds::is_void;
use crate::left::left_of;
use crate::line::{TreeLine, emits, evaluates, works};
use crate::moves::Move;
use crate::source::{Source, value_kind};
use crate::statement_lines::run_of;
use crate::wanted::Wanted;
use c_machine::Kind;
use c_steps::Tree;
use cbase::{Expr, NoMemory, Stmt, StmtForm};
use flow::Instr;

/// The expression statement at the end of a statement expression, if it has one: `;` alone may stand behind it.
///
/// It takes time for the statements at the end.
pub fn last_of(body: &[Stmt]) -> Option<&Expr>
    ensures { option_map (λ expr. expr.now) result ≡ last_of (trees Void) body.now }
{
    let many = until_last(body);
    if many == 0 {
        return None;
    }
    ending(&body[many - 1])
}

/// How many statements there are up to the one whose value a block has.
fn until_last(body: &[Stmt]) -> usize
    ensures is { result ≡ until_last (trees Void) body.now }
    ensures inside { result ≤ length body.now }
{
    let mut many = body.len();
    while many > 1 {
        if !is_empty(&body[many - 1]) {
            return many;
        }
        many -= 1;
    }
    many
}

/// Whether a statement is `;` alone.
fn is_empty(stmt: &Stmt) -> bool
    ensures { result ≡ is_empty ((trees Void).clause stmt.now) }
{
    match &stmt.form {
        StmtForm::Eval(expr) => expr.is_none(),
        _ => false,
    }
}

/// The expression of an expression statement.
fn ending(stmt: &Stmt) -> Option<&Expr>
    ensures { option_map (λ expr. expr.now) result ≡ ending (trees Void) ((trees Void).clause stmt.now) }
{
    match &stmt.form {
        StmtForm::Eval(Some(expr)) => Some(expr),
        _ => None,
    }
}

/// How many registers the value of a block leaves that hold what it let go of.
pub fn left_at_end(source: &Source, body: &[Stmt]) -> Result<u32, NoMemory>
    ensures { IfOk result (λ count. IsLeftAtEnd source.now body.now count) }
{
    match last_of(body) {
        None => Ok(0),
        Some(last) => {
            let kind = value_kind(source, last)?;
            left_of(source, wanted_of(kind), last)
        }
    }
}

/// What is wanted of the last expression of a block, by the kind of its value.
fn wanted_of(kind: Kind) -> Wanted
    ensures { result ≡ wanted_of kind }
{
    if is_void(kind) {
        Wanted::AsWork
    } else {
        Wanted::AsValue { in_spare: false }
    }
}

/// The statements of a block, the last of which makes its value: it lets go of `count` values, from the register `spare` on.
pub fn valued_moves<'a>(
    source: &Source,
    line: &mut TreeLine<'a>,
    spare: u32,
    count: u32,
    into: u32,
    body: &'a [Stmt],
) -> Result<(), NoMemory>
    ensures { OnOk result (AreValuedMoves source.now spare count into body.now line.old line.new) }
{
    let many = until_last(body);
    if many == 0 {
        return Ok(());
    }
    last_moves(source, line, spare, count, into, &body[many - 1])?;
    does_all(line, &body[..many - 1])
}

/// The statement that makes the value of a block.
fn last_moves<'a>(
    source: &Source,
    line: &mut TreeLine<'a>,
    spare: u32,
    count: u32,
    into: u32,
    stmt: &'a Stmt,
) -> Result<(), NoMemory>
    ensures { OnOk result (AreLastMoves source.now spare count into stmt.now line.old line.new) }
{
    match ending(stmt) {
        None => does(line, stmt),
        Some(expr) => {
            let kind = value_kind(source, expr)?;
            let registers = run_of(source.alloc(), spare, count)?;
            emits(line, Instr::Finish { registers }, stmt.after)?;
            if is_void(kind) {
                works(line, expr, spare)
            } else {
                evaluates(line, expr, spare, into)
            }
        }
    }
}

/// A statement.
pub fn does<'a>(line: &mut TreeLine<'a>, stmt: &'a Stmt) -> Result<(), NoMemory>
    ensures { OnOk result (line.new ≡ Does stmt.now ∷ line.old) }
{
    line.push(Move::Does(Tree::of(stmt)))
}

/// Statements, one behind the other.
pub fn does_all<'a>(line: &mut TreeLine<'a>, body: &'a [Stmt]) -> Result<(), NoMemory>
    ensures { OnOk result (line.new ≡ map Does body.now ++ line.old) }
{
    let mut left = body.len();
    while left > 0 {
        left -= 1;
        does(line, &body[left])?;
    }
    Ok(())
}
