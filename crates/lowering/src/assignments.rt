//! Assignments as lines of moves (C11 6.5.16).
ghost use Rattle.std.specs.Prelude.{◌≡◌, ◌++◌, OnOk};
ghost use Rattle.c_machine.specs.declared.kind.Kind.TheVariants.{Struct, Void};
ghost use Rattle.c_machine.specs.Words.{decayed, kind_after, scalar_bytes};
ghost use Rattle.lowering.specs.Kinds.{conversion};
ghost use Rattle.lowering.specs.Moves.{taking};
ghost use Rattle.lowering.specs.Table.{assign_line, store_line, update_line, update_moves};
ghost use Rattle.lowering.specs.Told.{IsLine, trees};

use crate::kinds::{conversion, fits, is_plain_operator, made_by, width};
use crate::line::{
    TreeLine, adapts, converts, copies, emits, evaluates, fails, keeps, keeps_zero, locates,
    stands_in, taken,
};
use crate::operations::operates;
use c_machine::Kind;
use c_steps::words::{decayed, is_pointer, kind_after, scalar_bytes};
use cbase::{BinaryOp, Expr, NoMemory};
use flow::Instr;

/// `=` on a scalar: one store at the place of the left side (C11 6.5.16.1).
fn store_line<'a>(
    registers: &mut u32,
    line: &mut TreeLine<'a>,
    expr: &'a Expr,
    left: &'a Expr,
    right: &'a Expr,
    spare: u32,
    kept: Option<u32>,
    kind: &Kind,
) -> Result<(), NoMemory>
    ensures { OnOk result (IsLine (store_line (trees Void) expr.now left.now right.now spare kept registers.old kind.now (scalar_bytes kind.now)) registers.old registers.new line.old line.new) }
{
    match scalar_bytes(*kind) {
        None => fails(line),
        Some(size) => {
            let at = taken(registers, 2)?;
            let from = at + 1;
            emits(line, Instr::Write { at, from, size }, left.place)?;
            keeps(line, kept, from, expr.place)?;
            converts(line, right, *kind, spare, from)?;
            locates(line, left, spare, at)
        }
    }
}

/// `=` on a struct of so many bytes: it is copied as a whole, at the `=`.
fn copy_line<'a>(
    registers: &mut u32,
    line: &mut TreeLine<'a>,
    expr: &'a Expr,
    left: &'a Expr,
    right: &'a Expr,
    spare: u32,
    kept: Option<u32>,
    bytes: u64,
) -> Result<(), NoMemory>
    ensures { OnOk result (IsLine (assign_line (trees Void) expr.now left.now right.now spare kept registers.old (Struct bytes)) registers.old registers.new line.old line.new) }
{
    let to = taken(registers, 2)?;
    keeps_zero(line, kept, expr.place)?;
    copies(line, to, to + 1, bytes, false, expr.place)?;
    locates(line, right, spare, to + 1)?;
    locates(line, left, spare, to)
}

/// `=` on a left side of a type (C11 6.5.16.1).
pub fn assign_line<'a>(
    registers: &mut u32,
    line: &mut TreeLine<'a>,
    expr: &'a Expr,
    left: &'a Expr,
    right: &'a Expr,
    spare: u32,
    kept: Option<u32>,
    kind: &Kind,
) -> Result<(), NoMemory>
    ensures { OnOk result (IsLine (assign_line (trees Void) expr.now left.now right.now spare kept registers.old kind.now) registers.old registers.new line.old line.new) }
{
    match kind {
        Kind::Struct(bytes) => {
            copy_line(registers, line, expr, left, right, spare, kept, *bytes)
        }
        _ => store_line(registers, line, expr, left, right, spare, kept, kind),
    }
}

/// The moves of `+=` and its like on a left side of so many bytes: its address, the value of the right side, and then a load, the operation, its conversion and the
/// store (C11 6.5.16.2).
fn update_moves<'a>(
    registers: &mut u32,
    line: &mut TreeLine<'a>,
    op: BinaryOp,
    expr: &'a Expr,
    left: &'a Expr,
    right: &'a Expr,
    spare: u32,
    kept: Option<u32>,
    kind: &Kind,
    other: &Kind,
    size: u8,
) -> Result<(), NoMemory>
    ensures { OnOk result (IsLine (taking 8 (update_moves (trees other.now) op expr.now left.now right.now spare kept registers.old kind.now size
        (conversion (kind_after op kind.now (decayed other.now)) kind.now))) registers.old registers.new line.old line.new) }
{
    let at = taken(registers, 8)?;
    let right_kind = decayed(*other);
    let made = kind_after(op, *kind, decayed(*other));
    let made = &made;
    let change = conversion(*made, *kind);
    let from = stands_in(change, at + 6, at + 7);
    emits(line, Instr::Write { at, from, size }, left.place)?;
    keeps(line, kept, from, expr.place)?;
    adapts(line, change, at + 6, width(*made), at + 7, expr.place)?;
    operates(
        line,
        op,
        kind,
        &right_kind,
        at + 3,
        at + 1,
        at + 4,
        at + 5,
        at + 6,
        expr.place,
    )?;
    emits(
        line,
        Instr::Read {
            into: at + 3,
            at: at + 2,
            size,
            pointer: is_pointer(*kind),
        },
        left.place,
    )?;
    emits(
        line,
        Instr::Move {
            into: at + 2,
            from: at,
        },
        left.place,
    )?;
    evaluates(line, right, spare, at + 1)?;
    locates(line, left, spare, at)
}

/// `+=` and its like on a left side of one type, where the right side has the type `other` (C11 6.5.16.2).
pub fn update_line<'a>(
    registers: &mut u32,
    line: &mut TreeLine<'a>,
    op: BinaryOp,
    expr: &'a Expr,
    left: &'a Expr,
    right: &'a Expr,
    spare: u32,
    kept: Option<u32>,
    kind: &Kind,
    other: &Kind,
) -> Result<(), NoMemory>
    ensures { OnOk result (IsLine (update_line (trees other.now) op expr.now left.now right.now spare kept registers.old kind.now (scalar_bytes kind.now)) registers.old registers.new line.old line.new) }
{
    match scalar_bytes(*kind) {
        None => fails(line),
        Some(size) => {
            if !is_plain_operator(op) {
                return fails(line);
            }
            let made = made_by(op, *kind, decayed(*other));
            if !fits(made, kind_after(op, *kind, decayed(*other))) {
                return fails(line);
            }
            update_moves(
                registers, line, op, expr, left, right, spare, kept, kind, other, size,
            )
        }
    }
}
