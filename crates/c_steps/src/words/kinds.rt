//! Types by what an access and an operator ask of them.
ghost use Rattle.std.specs.Prelude.{◌≡◌, ◌≤◌, IfSome};
ghost use Rattle.c_machine.specs.Words.{decayed, kind_after, scalar_bytes, is_pointer};

use c_machine::{Kind, WholeType};
use cbase::BinaryOp;

/// The type of a value: an array is a pointer to its first item (C11 6.3.2.1p3).
pub fn decayed(kind: Kind) -> Kind
    ensures { result ≡ decayed kind }
{
    match kind {
        Kind::Array(bytes) => Kind::Pointer(bytes),
        other => other,
    }
}

/// How many bytes a number or a pointer has. A value of another type has none: it is an address.
pub fn scalar_bytes(kind: Kind) -> Option<u8>
    ensures is { result ≡ scalar_bytes kind }
    ensures most { IfSome result (λ bytes. bytes ≤ 8) }
{
    match kind {
        Kind::Integer(of) => Some(of.get().bytes),
        Kind::Pointer(_) => Some(8),
        Kind::Array(_) | Kind::Struct(_) | Kind::Void => None,
    }
}

/// Whether a type is one of pointers.
pub fn is_pointer(kind: Kind) -> bool
    ensures { result ≡ is_pointer kind }
{
    matches!(kind, Kind::Pointer(_))
}

/// The type of what a binary operator makes of values of two types, where it is stored: of two integers their common type, of a shift the
/// promoted left one, and else the left one (C11 6.3.1.8, 6.5.7p3, 6.5.16.2p3).
pub fn kind_after(op: BinaryOp, left: Kind, right: Kind) -> Kind
    ensures { result ≡ kind_after op left right }
{
    match left {
        Kind::Integer(left) => integer_after(op, left, right),
        other => other,
    }
}

/// The same behind an integer on the left.
fn integer_after(op: BinaryOp, left: WholeType, right: Kind) -> Kind
    ensures { result ≡ kind_after op (Kind.Integer left) right }
{
    match (op, right) {
        (BinaryOp::Left | BinaryOp::Right, _) => Kind::Integer(left.promoted()),
        (_, Kind::Integer(right)) => Kind::Integer(left.common(right)),
        _ => Kind::Integer(left),
    }
}
