//! `++` and `--` as lines of moves (C11 6.5.2.4, 6.5.3.1).
ghost use Rattle.std.specs.Prelude.{◌≡◌, OnOk};
ghost use Rattle.c_machine.specs.declared.kind.Kind.TheVariants.{Integer, Void};
ghost use Rattle.c_machine.specs.Step.{counting};
ghost use Rattle.c_machine.specs.Words.{kind_after, scalar_bytes};
ghost use Rattle.typing.specs.ctypes.Integers.{int};
ghost use Rattle.lowering.specs.Kinds.{conversion};
ghost use Rattle.lowering.specs.Moves.{taking};
ghost use Rattle.lowering.specs.Table.{count_line, count_moves, one_bytes, one_change, old_kept, new_kept};
ghost use Rattle.lowering.specs.Told.{IsLine, trees};

use crate::conversion::Conversion;
use crate::kinds::{as_operand, conversion, width};
use crate::line::{TreeLine, adapts, emits, fails, keeps, locates, resizes, stands_in, taken};
use crate::operations::combines;
use c_machine::{Kind, WholeType};
use c_steps::words::{is_pointer, kind_after, scalar_bytes};
use cbase::{BinaryOp, Expr, NoMemory};
use flow::Instr;

/// The operator that counts up or down.
fn counting(up: bool) -> BinaryOp
    ensures { result ≡ counting up }
{
    if up { BinaryOp::Add } else { BinaryOp::Sub }
}

/// How many bytes the 1 has by which a value of a kind is counted.
fn one_bytes(kind: Kind) -> u8
    ensures { result ≡ one_bytes kind }
{
    match kind {
        Kind::Integer(of) => of.common(WholeType::int()).get().bytes,
        _ => 8,
    }
}

/// What a value of a kind is converted to in front of that.
fn one_change(kind: Kind) -> Conversion
    ensures { result ≡ one_change kind }
{
    match kind {
        Kind::Integer(of) => as_operand(of, of.common(WholeType::int())),
        _ => Conversion::Nothing,
    }
}

/// The register that keeps the old value, behind the operand.
fn old_kept(after: bool, kept: Option<u32>) -> Option<u32>
    ensures { result ≡ old_kept after kept }
{
    if after { kept } else { None }
}

/// The register that keeps the new value, in front of the operand.
fn new_kept(after: bool, kept: Option<u32>) -> Option<u32>
    ensures { result ≡ new_kept after kept }
{
    if after { None } else { kept }
}

/// The moves of `++` or `--` on an operand of so many bytes.
fn count_moves<'a>(
    registers: &mut u32,
    line: &mut TreeLine<'a>,
    up: bool,
    after: bool,
    expr: &'a Expr,
    arg: &'a Expr,
    spare: u32,
    kept: Option<u32>,
    kind: &Kind,
    size: u8,
) -> Result<(), NoMemory>
    ensures { OnOk result (IsLine (taking 7 (count_moves (trees Void) up after expr.now arg.now spare kept registers.old kind.now size
        (conversion (kind_after (counting up) kind.now (Integer int)) kind.now))) registers.old registers.new line.old line.new) }
{
    let at = taken(registers, 7)?;
    let op = counting(up);
    let made = kind_after(op, *kind, Kind::Integer(WholeType::int()));
    let made = &made;
    let change = conversion(*made, *kind);
    let from = stands_in(change, at + 5, at + 6);
    emits(line, Instr::Write { at, from, size }, arg.place)?;
    keeps(line, new_kept(after, kept), from, expr.place)?;
    adapts(line, change, at + 5, width(*made), at + 6, expr.place)?;
    let counted = stands_in(one_change(*kind), at + 2, at + 3);
    combines(
        line,
        op,
        *kind,
        Kind::Integer(WholeType::int()),
        counted,
        at + 4,
        at + 5,
        expr.place,
    )?;
    emits(
        line,
        Instr::Number {
            into: at + 4,
            value: 1,
            size: one_bytes(*kind),
        },
        expr.place,
    )?;
    resizes(line, one_change(*kind), at + 2, at + 3, expr.place)?;
    keeps(line, old_kept(after, kept), at + 2, expr.place)?;
    emits(
        line,
        Instr::Read {
            into: at + 2,
            at: at + 1,
            size,
            pointer: is_pointer(*kind),
        },
        arg.place,
    )?;
    emits(
        line,
        Instr::Move {
            into: at + 1,
            from: at,
        },
        arg.place,
    )?;
    locates(line, arg, spare, at)
}

/// `++` and `--` on an operand of a type.
pub fn count_line<'a>(
    registers: &mut u32,
    line: &mut TreeLine<'a>,
    up: bool,
    after: bool,
    expr: &'a Expr,
    arg: &'a Expr,
    spare: u32,
    kept: Option<u32>,
    kind: &Kind,
) -> Result<(), NoMemory>
    ensures { OnOk result (IsLine (count_line (trees Void) up after expr.now arg.now spare kept registers.old kind.now (scalar_bytes kind.now)) registers.old registers.new line.old line.new) }
{
    match scalar_bytes(*kind) {
        None => fails(line),
        Some(size) => count_moves(
            registers, line, up, after, expr, arg, spare, kept, kind, size,
        ),
    }
}
