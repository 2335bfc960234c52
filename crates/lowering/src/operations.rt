//! Operators on what two registers hold (C11 6.5.5 to 6.5.12).
ghost use Rattle.std.specs.Prelude.{◌≡◌, ◌∷◌, ◌++◌, OnOk, pos, neg_ℤ, if◌then◌else◌};
ghost use Rattle.c_machine.specs.declared.kind.Kind.TheVariants.{Integer, Pointer};
ghost use Rattle.flow.specs.declared.instruction.Instr.TheVariants.{ShiftBy};
ghost use Rattle.lowering.specs.Kinds.{as_address, is_equality, sides};
ghost use Rattle.lowering.specs.declared.conversion.Conversion.TheVariants.{Nothing};
ghost use Rattle.lowering.specs.Moves.{Emits, of_integers, combines, computes, operates};

use crate::conversion::Conversion;
use crate::kinds::{as_address, as_count, as_operand, meeting};
use crate::line::{TreeLine, emits, fails, resizes, stands_in};
use arithmetic::Op;
use c_machine::{Kind, WholeType};
use cbase::{BinaryOp, NoMemory, Place};
use flow::Instr;

/// An operation on two integers of one type.
fn computes(
    line: &mut TreeLine,
    op: Op,
    one: u32,
    other: u32,
    into: u32,
    of: WholeType,
    place: Place,
) -> Result<(), NoMemory>
    ensures { OnOk result (line.new ≡ computes op one other into of place ++ line.old) }
{
    let of = of.get();
    emits(
        line,
        Instr::Compute {
            into,
            op,
            left: one,
            right: other,
            size: of.bytes,
            signed: of.signed,
        },
        place,
    )
}

/// An operator on two integers behind their conversions; `>` and `>=` are `<` and `<=` with their sides exchanged.
fn of_integers(
    line: &mut TreeLine,
    op: BinaryOp,
    left: WholeType,
    right: WholeType,
    one: u32,
    other: u32,
    into: u32,
    place: Place,
) -> Result<(), NoMemory>
    ensures { OnOk result (line.new ≡ of_integers op left right one other into place ++ line.old) }
{
    let of = meeting(op, left, right);
    match op {
        BinaryOp::Mul => computes(line, Op::Mul, one, other, into, of, place),
        BinaryOp::Div => computes(line, Op::Div, one, other, into, of, place),
        BinaryOp::Rem => computes(line, Op::Rem, one, other, into, of, place),
        BinaryOp::Add => computes(line, Op::Add, one, other, into, of, place),
        BinaryOp::Sub => computes(line, Op::Sub, one, other, into, of, place),
        BinaryOp::Left => computes(line, Op::Left, one, other, into, left.promoted(), place),
        BinaryOp::Right => computes(line, Op::Right, one, other, into, left.promoted(), place),
        BinaryOp::Less => computes(line, Op::Less, one, other, into, of, place),
        BinaryOp::Greater => computes(line, Op::Less, other, one, into, of, place),
        BinaryOp::LessEqual => computes(line, Op::LessEqual, one, other, into, of, place),
        BinaryOp::GreaterEqual => computes(line, Op::LessEqual, other, one, into, of, place),
        BinaryOp::And => computes(line, Op::And, one, other, into, of, place),
        BinaryOp::Xor => computes(line, Op::Xor, one, other, into, of, place),
        BinaryOp::Or => computes(line, Op::Or, one, other, into, of, place),
        BinaryOp::Equal
        | BinaryOp::NotEqual
        | BinaryOp::Both
        | BinaryOp::Either
        | BinaryOp::Comma => fails(line),
    }
}

/// A pointer that is moved by a number of items of so many bytes (C11 6.5.6p8).
fn moves_by(
    line: &mut TreeLine,
    backwards: bool,
    bytes: u64,
    at: u32,
    by: u32,
    into: u32,
    place: Place,
) -> Result<(), NoMemory>
    ensures { OnOk result (line.new ≡ Emits (ShiftBy into at by (if backwards then neg_ℤ (pos bytes) else pos bytes)) place ∷ line.old) }
{
    match i64::try_from(bytes) {
        Ok(bytes) => {
            let scale = if backwards { -bytes } else { bytes };
            emits(
                line,
                Instr::ShiftBy {
                    into,
                    at,
                    by,
                    scale,
                },
                place,
            )
        }
        Err(_) => Err(NoMemory),
    }
}

/// An operator whose left side is an integer.
fn behind_integer(
    line: &mut TreeLine,
    op: BinaryOp,
    left: WholeType,
    right: Kind,
    one: u32,
    other: u32,
    into: u32,
    place: Place,
) -> Result<(), NoMemory>
    ensures { OnOk result (line.new ≡ combines op (Integer left) right one other into place ++ line.old) }
{
    match right {
        Kind::Integer(right) => of_integers(line, op, left, right, one, other, into, place),
        Kind::Pointer(bytes) => match op {
            BinaryOp::Add => moves_by(line, false, bytes, other, one, into, place),
            _ => fails(line),
        },
        _ => fails(line),
    }
}

/// An operator whose left side is a pointer.
fn behind_pointer(
    line: &mut TreeLine,
    op: BinaryOp,
    bytes: u64,
    right: Kind,
    one: u32,
    other: u32,
    into: u32,
    place: Place,
) -> Result<(), NoMemory>
    ensures { OnOk result (line.new ≡ combines op (Pointer bytes) right one other into place ++ line.old) }
{
    match right {
        Kind::Integer(_) => match op {
            BinaryOp::Add => moves_by(line, false, bytes, one, other, into, place),
            BinaryOp::Sub => moves_by(line, true, bytes, one, other, into, place),
            _ => fails(line),
        },
        _ => fails(line),
    }
}

/// Two values behind their conversions.
pub fn combines(
    line: &mut TreeLine,
    op: BinaryOp,
    left: Kind,
    right: Kind,
    one: u32,
    other: u32,
    into: u32,
    place: Place,
) -> Result<(), NoMemory>
    ensures { OnOk result (line.new ≡ combines op left right one other into place ++ line.old) }
{
    match left {
        Kind::Integer(left) => { behind_integer(line, op, left, right, one, other, into, place) }
        Kind::Pointer(bytes) => { behind_pointer(line, op, bytes, right, one, other, into, place) }
        Kind::Array(_) | Kind::Struct(_) | Kind::Void => fails(line),
    }
}

/// What the sides of an operator are converted to, behind both.
#[derive(Clone, Copy)]
pub struct Sides {
    /// The conversion of the left side.
    pub left: Conversion,
    /// The conversion of the right side.
    pub right: Conversion,
}

/// The conversions of the two sides of an operator, which stand behind both (C11 6.3.1.8, 6.5.7p3).
pub fn sides_of(op: BinaryOp, left: Kind, right: Kind) -> Sides
    ensures left { result.left ≡ (sides op left right).left }
    ensures right { result.right ≡ (sides op left right).right }
{
    match left {
        Kind::Integer(of) => beside_integer(op, of, right),
        Kind::Pointer(bytes) => beside_pointer(op, bytes, right),
        Kind::Array(_) | Kind::Struct(_) | Kind::Void => where_equal(op, left, right),
    }
}

/// The conversions where the left side is an integer.
fn beside_integer(op: BinaryOp, left: WholeType, right: Kind) -> Sides
    ensures left { result.left ≡ (sides op (Integer left) right).left }
    ensures right { result.right ≡ (sides op (Integer left) right).right }
{
    match right {
        Kind::Integer(right) => of_two_integers(op, left, right),
        Kind::Pointer(_) => match op {
            BinaryOp::Add => Sides {
                left: as_count(left),
                right: Conversion::Nothing,
            },
            _ => where_equal(op, Kind::Integer(left), right),
        },
        Kind::Array(_) | Kind::Struct(_) | Kind::Void => {
            where_equal(op, Kind::Integer(left), right)
        }
    }
}

/// The conversions of two integers.
fn of_two_integers(op: BinaryOp, left: WholeType, right: WholeType) -> Sides
    ensures left { result.left ≡ (sides op (Integer left) (Integer right)).left }
    ensures right { result.right ≡ (sides op (Integer left) (Integer right)).right }
{
    match op {
        BinaryOp::Left | BinaryOp::Right => Sides {
            left: as_operand(left, left.promoted()),
            right: as_operand(right, right.promoted()),
        },
        _ => {
            let to = meeting(op, left, right);
            Sides {
                left: as_operand(left, to),
                right: as_operand(right, to),
            }
        }
    }
}

/// The conversions where the left side is a pointer.
fn beside_pointer(op: BinaryOp, bytes: u64, right: Kind) -> Sides
    ensures left { result.left ≡ (sides op (Pointer bytes) right).left }
    ensures right { result.right ≡ (sides op (Pointer bytes) right).right }
{
    match right {
        Kind::Integer(of) => match op {
            BinaryOp::Add | BinaryOp::Sub => Sides {
                left: Conversion::Nothing,
                right: as_count(of),
            },
            _ => where_equal(op, Kind::Pointer(bytes), right),
        },
        _ => where_equal(op, Kind::Pointer(bytes), right),
    }
}

/// The conversions of what is only compared.
fn where_equal(op: BinaryOp, left: Kind, right: Kind) -> Sides
    ensures left { result.left ≡ (if is_equality op then as_address left else Nothing) }
    ensures right { result.right ≡ (if is_equality op then as_address right else Nothing) }
{
    match op {
        BinaryOp::Equal | BinaryOp::NotEqual => Sides {
            left: as_address(left),
            right: as_address(right),
        },
        _ => Sides {
            left: Conversion::Nothing,
            right: Conversion::Nothing,
        },
    }
}

/// An operator on what two registers hold: the conversions of both sides, each into a register of its own, and the operation.
pub fn operates(
    line: &mut TreeLine,
    op: BinaryOp,
    left: &Kind,
    right: &Kind,
    one: u32,
    other: u32,
    one_changed: u32,
    other_changed: u32,
    into: u32,
    place: Place,
) -> Result<(), NoMemory>
    ensures { OnOk result (line.new ≡ operates op left.now right.now one other one_changed other_changed into place ++ line.old) }
{
    let between = sides_of(op, *left, *right);
    let one_stands = stands_in(between.left, one, one_changed);
    let other_stands = stands_in(between.right, other, other_changed);
    combines(
        line,
        op,
        *left,
        *right,
        one_stands,
        other_stands,
        into,
        place,
    )?;
    resizes(line, between.right, other, other_changed, place)?;
    resizes(line, between.left, one, one_changed, place)
}
