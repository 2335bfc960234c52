//! How many bytes a register has for a value, and which conversions there are (C11 6.3).
ghost use Rattle.std.specs.Prelude.{◌≡◌};
ghost use Rattle.c_machine.specs.Words.{is_same};
ghost use Rattle.lowering.specs.Kinds.{width, is_void, is_address, fits, tested, between_integers, to_integer, as_operand, conversion, as_count, as_address, meeting, is_plain_operator, stored_by, made_by};

use crate::conversion::Conversion;
use c_machine::{Kind, WholeType};
use c_steps::words::{kind_after, scalar_bytes};
use cbase::BinaryOp;
use typing::ctypes::IntegerType;

/// How many bytes a register has for a value of that kind: for an address, and so for an array or a struct, 8.
pub fn width(kind: Kind) -> u8
    ensures { result ≡ width kind }
{
    match scalar_bytes(kind) {
        None => 8,
        Some(bytes) => bytes,
    }
}

/// Whether there is no value.
pub fn is_void(kind: Kind) -> bool
    ensures { result ≡ is_void kind }
{
    matches!(kind, Kind::Void)
}

/// Whether a value is an address.
pub fn is_address(kind: Kind) -> bool
    ensures { result ≡ is_address kind }
{
    matches!(kind, Kind::Pointer(_) | Kind::Array(_) | Kind::Struct(_))
}

/// Whether a value that was made as one kind is one of another as it stands.
pub fn fits(made: Kind, asked: Kind) -> bool
    ensures { result ≡ fits made asked }
{
    match made {
        Kind::Integer(made) => integer_fits(made, asked),
        Kind::Void => is_void(asked),
        Kind::Pointer(_) | Kind::Array(_) | Kind::Struct(_) => is_address(asked),
    }
}

/// Whether an integer of a type is a value of a kind as it stands.
fn integer_fits(made: WholeType, asked: Kind) -> bool
    ensures { result ≡ fits (Kind.Integer made) asked }
{
    match asked {
        Kind::Integer(asked) => made.get().bytes == asked.get().bytes,
        _ => false,
    }
}

/// Whether two types of integers are one.
fn is_same(from: IntegerType, to: IntegerType) -> bool
    ensures { result ≡ is_same from to }
{
    from.bytes == to.bytes && from.signed == to.signed && from.truth == to.truth
}

/// The conversion of a value of some bytes to a `_Bool`, which has 1 byte (C11 6.3.1.2).
fn tested(bytes: u8, to: IntegerType) -> Conversion
    ensures { result ≡ tested bytes to }
{
    if 0 < bytes && to.bytes == 1 {
        Conversion::Tested
    } else {
        Conversion::Unknown
    }
}

/// The conversion of an integer of one type to another (C11 6.3.1.2, 6.3.1.3).
pub fn between_integers(from: WholeType, to: WholeType) -> Conversion
    ensures { result ≡ between_integers from to }
{
    let from = from.get();
    let to = to.get();
    if is_same(from, to) {
        Conversion::Nothing
    } else if to.truth {
        tested(from.bytes, to)
    } else {
        Conversion::Resized {
            bytes: to.bytes,
            signed: from.signed,
        }
    }
}

/// The conversion of an integer to the type in which an operator computes, which is no `_Bool` (C11 6.3.1.1p2, 6.3.1.8).
pub fn as_operand(from: WholeType, to: WholeType) -> Conversion
    ensures { result ≡ as_operand from to }
{
    if to.get().truth {
        Conversion::Unknown
    } else {
        between_integers(from, to)
    }
}

/// The conversion of an address to an integer of a type (C11 6.3.2.3p6).
fn to_integer(to: WholeType) -> Conversion
    ensures { result ≡ to_integer to }
{
    let to = to.get();
    if to.truth {
        tested(8, to)
    } else {
        Conversion::Resized {
            bytes: to.bytes,
            signed: false,
        }
    }
}

/// The conversion of a value of one kind to another (C11 6.3).
pub fn conversion(from: Kind, to: Kind) -> Conversion
    ensures { result ≡ conversion from to }
{
    match to {
        Kind::Void => Conversion::Dropped,
        Kind::Integer(to) => value_to_integer(from, to),
        Kind::Pointer(bytes) => value_to_pointer(from, bytes),
        Kind::Array(_) | Kind::Struct(_) => {
            if is_address(from) {
                Conversion::Nothing
            } else {
                Conversion::Unknown
            }
        }
    }
}

/// The conversion of a value to an integer of a type.
fn value_to_integer(from: Kind, to: WholeType) -> Conversion
    ensures { result ≡ conversion from (Kind.Integer to) }
{
    match from {
        Kind::Integer(from) => between_integers(from, to),
        Kind::Void => Conversion::Unknown,
        Kind::Pointer(_) | Kind::Array(_) | Kind::Struct(_) => to_integer(to),
    }
}

/// The conversion of a value to a pointer (C11 6.3.2.3p5).
fn value_to_pointer(from: Kind, bytes: u64) -> Conversion
    ensures { result ≡ conversion from (Kind.Pointer bytes) }
{
    match from {
        Kind::Integer(from) => Conversion::Resized {
            bytes: 8,
            signed: from.get().signed,
        },
        Kind::Void => Conversion::Unknown,
        Kind::Pointer(_) | Kind::Array(_) | Kind::Struct(_) => Conversion::Nothing,
    }
}

/// The conversion of a number by which a pointer is moved (C11 6.5.6p8).
pub fn as_count(of: WholeType) -> Conversion
    ensures { result ≡ as_count of }
{
    let of = of.get();
    if of.bytes == 8 {
        Conversion::Nothing
    } else {
        Conversion::Resized {
            bytes: 8,
            signed: of.signed,
        }
    }
}

/// The conversion of a value that is compared with a pointer (C11 6.5.9p5).
pub fn as_address(kind: Kind) -> Conversion
    ensures { result ≡ as_address kind }
{
    match kind {
        Kind::Integer(of) => Conversion::Resized {
            bytes: 8,
            signed: of.get().signed,
        },
        _ => Conversion::Nothing,
    }
}

/// The type in which two integers meet (C11 6.3.1.8).
pub fn meeting(op: BinaryOp, left: WholeType, right: WholeType) -> WholeType
    ensures { result ≡ meeting op left right }
{
    match op {
        BinaryOp::Greater | BinaryOp::GreaterEqual => right.common(left),
        _ => left.common(right),
    }
}

/// Whether an operator neither compares nor chooses nor drops.
pub fn is_plain_operator(op: BinaryOp) -> bool
    ensures { result ≡ is_plain_operator op }
{
    matches!(
        op,
        BinaryOp::Mul
            | BinaryOp::Div
            | BinaryOp::Rem
            | BinaryOp::Add
            | BinaryOp::Sub
            | BinaryOp::Left
            | BinaryOp::Right
            | BinaryOp::And
            | BinaryOp::Xor
            | BinaryOp::Or
    )
}

/// The kind of what such an operator makes.
fn stored_by(op: BinaryOp, left: Kind, right: Kind) -> Kind
    ensures { result ≡ stored_by op left right }
{
    match (op, left, right) {
        (BinaryOp::Add, Kind::Integer(_), Kind::Pointer(bytes)) => Kind::Pointer(bytes),
        _ => kind_after(op, left, right),
    }
}

/// The kind of what an operator makes: a comparison makes an `int`.
pub fn made_by(op: BinaryOp, left: Kind, right: Kind) -> Kind
    ensures { result ≡ made_by op left right }
{
    if is_plain_operator(op) {
        stored_by(op, left, right)
    } else {
        Kind::Integer(WholeType::int())
    }
}
