//! Operators as lines: `+`, `-` and `~` on one value, and those with two sides (C11 6.5.3.3, 6.5.5 to 6.5.12).
ghost use Rattle.std.specs.Prelude.{◌≡◌, ◌+◌, ◌-◌, ◌^◌, ◌∷◌, OnOk};
ghost use Rattle.c_machine.specs.declared.kind.Kind.TheVariants.{Integer, Void};
ghost use Rattle.cbase.specs.declared.tree.operators.UnaryOp.TheVariants.{Minus, Flip};
ghost use Rattle.lowering.specs.Moves.{Evaluates, operates, taking};
ghost use Rattle.lowering.specs.Table.{plus_line, taken_from, unary_line};
ghost use Rattle.lowering.specs.Told.{IsLine, trees};

use crate::conversion::Conversion;
use crate::kinds::as_operand;
use crate::line::{TreeLine, emits, evaluates, fails, resizes, stands_in, taken};
use crate::operations::operates;
use arithmetic::{Op, Size};
use c_machine::{Kind, WholeType};
use cbase::{BinaryOp, Expr, NoMemory, UnaryOp};
use flow::Instr;

/// The number of all ones in a type.
fn all_ones(of: WholeType) -> u64
    ensures { result ≡ 256 ^ of.bytes - 1 }
{
    match of.size() {
        Size::One => 0xff,
        Size::Two => 0xffff,
        Size::Four => 0xffff_ffff,
        Size::Eight => 0xffff_ffff_ffff_ffff,
    }
}

/// `-` or `~` on an integer behind its promotion: a number less its value.
fn taken_from<'a>(
    registers: &mut u32,
    line: &mut TreeLine<'a>,
    expr: &'a Expr,
    arg: &'a Expr,
    spare: u32,
    into: u32,
    bits: u64,
    change: Conversion,
    of: WholeType,
) -> Result<(), NoMemory>
    ensures { OnOk result (IsLine (taken_from (trees Void) expr.now arg.now spare into registers.old bits change of) registers.old registers.new line.old line.new) }
{
    let first = taken(registers, 3)?;
    let of = of.get();
    emits(
        line,
        Instr::Compute {
            into,
            op: Op::Sub,
            left: first + 2,
            right: stands_in(change, first, first + 1),
            size: of.bytes,
            signed: of.signed,
        },
        expr.place,
    )?;
    emits(
        line,
        Instr::Number {
            into: first + 2,
            value: bits,
            size: of.bytes,
        },
        expr.place,
    )?;
    resizes(line, change, first, first + 1, expr.place)?;
    evaluates(line, arg, spare, first)
}

/// `+` on an integer: its promotion.
fn plus_line<'a>(
    registers: &mut u32,
    line: &mut TreeLine<'a>,
    expr: &'a Expr,
    arg: &'a Expr,
    spare: u32,
    into: u32,
    change: Conversion,
) -> Result<(), NoMemory>
    ensures { OnOk result (IsLine (plus_line (trees Void) expr.now arg.now spare into registers.old change) registers.old registers.new line.old line.new) }
{
    match change {
        Conversion::Nothing => evaluates(line, arg, spare, into),
        _ => {
            let first = taken(registers, 1)?;
            resizes(line, change, first, into, expr.place)?;
            evaluates(line, arg, spare, first)
        }
    }
}

/// `+`, `-` and `~` (C11 6.5.3.3).
pub fn unary_line<'a>(
    registers: &mut u32,
    line: &mut TreeLine<'a>,
    expr: &'a Expr,
    op: UnaryOp,
    arg: &'a Expr,
    kind: Kind,
    spare: u32,
    into: u32,
) -> Result<(), NoMemory>
    ensures { OnOk result (IsLine (unary_line (trees Void) expr.now op arg.now spare into registers.old kind) registers.old registers.new line.old line.new) }
{
    match kind {
        Kind::Integer(of) => {
            let promoted = of.promoted();
            let change = as_operand(of, promoted);
            match op {
                UnaryOp::Plus => plus_line(registers, line, expr, arg, spare, into, change),
                UnaryOp::Minus => taken_from(
                    registers, line, expr, arg, spare, into, 0, change, promoted,
                ),
                UnaryOp::Flip => taken_from(
                    registers,
                    line,
                    expr,
                    arg,
                    spare,
                    into,
                    all_ones(promoted),
                    change,
                    promoted,
                ),
                UnaryOp::Address | UnaryOp::Follow | UnaryOp::Not => fails(line),
            }
        }
        _ => fails(line),
    }
}

/// An operator with two sides that are both worked out first (C11 6.5.5 to 6.5.12).
pub fn operation_line<'a>(
    registers: &mut u32,
    line: &mut TreeLine<'a>,
    expr: &'a Expr,
    op: BinaryOp,
    left: &'a Expr,
    right: &'a Expr,
    left_kind: &Kind,
    right_kind: &Kind,
    spare: u32,
    into: u32,
) -> Result<(), NoMemory>
    ensures { OnOk result (IsLine (taking 4 (Evaluates left.now spare registers.old ∷ Evaluates right.now spare (registers.old + 1)
        ∷ operates op left_kind.now right_kind.now registers.old (registers.old + 1) (registers.old + 2) (registers.old + 3) into expr.now.place))
        registers.old registers.new line.old line.new) }
{
    let first = taken(registers, 4)?;
    operates(
        line,
        op,
        left_kind,
        right_kind,
        first,
        first + 1,
        first + 2,
        first + 3,
        into,
        expr.place,
    )?;
    evaluates(line, right, spare, first + 1)?;
    evaluates(line, left, spare, first)
}
