//! Conditions as lines of moves (C11 6.5.8, 6.5.9, 6.8.4.1).
ghost use Rattle.std.specs.Prelude.{◌≡◌, ◌+◌, ◌-◌, ◌≤◌, ◌<◌, ◌^◌, suc, [], ◌∷◌, ◌++◌, OnOk};
ghost use Rattle.c_machine.specs.declared.kind.Kind.TheVariants.{Void};
ghost use Rattle.flow.specs.declared.instruction.Instr.TheVariants.{IfDifferent, IfSame, Number};
ghost use Rattle.lowering.specs.Kinds.{sides, width};
ghost use Rattle.lowering.specs.Moves.{Emits, Evaluates, Parts, pads, zeros, taking};
ghost use Rattle.lowering.specs.Placing.{equality_moves};
ghost use Rattle.lowering.specs.Told.{IsLine, trees};

use crate::kinds::width;
use crate::line::{TreeLine, emits, evaluates, resizes, stands_in, taken};
use crate::moves::Move;
use crate::operations::sides_of;
use c_machine::Kind;
use cbase::{BinaryOp, Expr, NoMemory, Place};
use flow::Instr;

/// Two edges, to a point where two registers are equal and to one where they differ.
fn parts(
    line: &mut TreeLine,
    one: u32,
    other: u32,
    same: u32,
    differs: u32,
    place: Place,
) -> Result<(), NoMemory>
    ensures { OnOk result (line.new ≡ Parts (IfSame one other) same (IfDifferent one other) differs place ∷ line.old) }
{
    line.push(Move::Parts {
        one: Instr::IfSame {
            left: one,
            right: other,
        },
        off: same,
        other: Instr::IfDifferent {
            left: one,
            right: other,
        },
        on: differs,
        place,
    })
}

/// A value of a kind is tested against a 0 of its own size.
pub fn zero_test_line<'a>(
    registers: &mut u32,
    line: &mut TreeLine<'a>,
    expr: &'a Expr,
    kind: Kind,
    spare: u32,
    off: u32,
    on: u32,
) -> Result<(), NoMemory>
    ensures { OnOk result (IsLine (taking 2 (Evaluates expr.now spare registers.old ∷ Emits (Number (suc registers.old) 0 (width kind)) expr.now.place
        ∷ Parts (IfSame registers.old (suc registers.old)) off (IfDifferent registers.old (suc registers.old)) on expr.now.place ∷ []))
        registers.old registers.new line.old line.new) }
{
    let first = taken(registers, 2)?;
    parts(line, first, first + 1, off, on, expr.place)?;
    emits(
        line,
        Instr::Number {
            into: first + 1,
            value: 0,
            size: width(kind),
        },
        expr.place,
    )?;
    evaluates(line, expr, spare, first)
}

/// `==` or `!=` on values of two kinds: both sides, their conversions, and two edges.
pub fn equality_line<'a>(
    registers: &mut u32,
    line: &mut TreeLine<'a>,
    op: BinaryOp,
    expr: &'a Expr,
    left: &'a Expr,
    right: &'a Expr,
    left_kind: Kind,
    right_kind: Kind,
    spare: u32,
    same: u32,
    differs: u32,
) -> Result<(), NoMemory>
    ensures { OnOk result (IsLine (taking 4 (equality_moves (trees Void) (sides op left_kind right_kind) expr.now left.now right.now spare registers.old same differs))
        registers.old registers.new line.old line.new) }
{
    let first = taken(registers, 4)?;
    let between = sides_of(op, left_kind, right_kind);
    let one = stands_in(between.left, first, first + 2);
    let other = stands_in(between.right, first + 1, first + 3);
    parts(line, one, other, same, differs, expr.place)?;
    resizes(line, between.right, first + 1, first + 3, expr.place)?;
    resizes(line, between.left, first, first + 2, expr.place)?;
    evaluates(line, right, spare, first + 1)?;
    evaluates(line, left, spare, first)
}

/// Registers that hold 0, from `have` of them on to `want`.
pub fn pads(
    line: &mut TreeLine,
    spare: u32,
    have: u32,
    want: u32,
    place: Place,
) -> Result<(), NoMemory>
    requires { spare + want < 2 ^ 32 }
    ensures { OnOk result (line.new ≡ pads spare have want place ++ line.old) }
{
    if want <= have {
        return Ok(());
    }
    let mut left = want;
    while left > have {
        left -= 1;
        emits(
            line,
            Instr::Number {
                into: spare + left,
                value: 0,
                size: 8,
            },
            place,
        )?;
    }
    Ok(())
}
