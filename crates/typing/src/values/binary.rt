ghost use Rattle.std.specs.Prelude.{◌≡◌, true};
ghost use Rattle.typing.specs.ctypes.Kinds.{Kind, integer_in};
ghost use Rattle.typing.specs.values.Values.{is_whole, in_common, shifted, are_equal, of_binary, binary_value};

use crate::ctypes::IntegerType;
use crate::values::condition::is_true;
use crate::values::converting::{as_type, common, promoted};
use crate::values::whole::{size_of, whole};
use arithmetic::{Op, compute, equal};
use cbase::BinaryOp;

/// The value of a binary operation, where it has one (C11 6.5.5 to 6.5.14, 6.6p6).
///
/// Each operand is given by its type, if that is one of integers, and by its value, if it has one. A division by zero
/// has no value, a shift by the width or more has none, and the comma has none.
pub fn binary_value(
    op: BinaryOp,
    left: Option<IntegerType>,
    x: Option<u64>,
    right: Option<IntegerType>,
    y: Option<u64>,
) -> Option<u64>
    ensures { (first second : Kind) → integer_in first ≡ left → integer_in second ≡ right → result ≡ binary_value op first x second y }
{
    match (whole(left), x, whole(right), y) {
        (Some(left), Some(x), Some(right), Some(y)) => of_binary(op, left, x, right, y),
        _ => None,
    }
}

/// The value of a binary operation on two integers.
fn of_binary(op: BinaryOp, left: IntegerType, x: u64, right: IntegerType, y: u64) -> Option<u64>
    requires left { is_whole left ≡ true }
    requires right { is_whole right ≡ true }
    ensures { result ≡ of_binary op left x right y }
{
    let what = match op {
        BinaryOp::Mul => Op::Mul,
        BinaryOp::Div => Op::Div,
        BinaryOp::Rem => Op::Rem,
        BinaryOp::Add => Op::Add,
        BinaryOp::Sub => Op::Sub,
        BinaryOp::Less => Op::Less,
        BinaryOp::LessEqual => Op::LessEqual,
        BinaryOp::And => Op::And,
        BinaryOp::Xor => Op::Xor,
        BinaryOp::Or => Op::Or,
        BinaryOp::Greater => return in_common(Op::Less, right, y, left, x),
        BinaryOp::GreaterEqual => return in_common(Op::LessEqual, right, y, left, x),
        BinaryOp::Left => return shifted(Op::Left, left, x, right, y),
        BinaryOp::Right => return shifted(Op::Right, left, x, right, y),
        BinaryOp::Equal => return Some(u64::from(are_equal(left, x, right, y))),
        BinaryOp::NotEqual => return Some(u64::from(!are_equal(left, x, right, y))),
        BinaryOp::Both => return Some(u64::from(is_true(x) && is_true(y))),
        BinaryOp::Either => return Some(u64::from(is_true(x) || is_true(y))),
        BinaryOp::Comma => return None,
    };
    in_common(what, left, x, right, y)
}

/// An operation in the type of the usual arithmetic conversions (C11 6.3.1.8).
fn in_common(what: Op, left: IntegerType, x: u64, right: IntegerType, y: u64) -> Option<u64>
    requires left { is_whole left ≡ true }
    requires right { is_whole right ≡ true }
    ensures { result ≡ in_common what left x right y }
{
    let both = common(left, right);
    let (x, y) = (as_type(left, both, x), as_type(right, both, y));
    compute(what, size_of(both), both.signed, x, y)
}

/// A shift, in the type of its promoted left operand (C11 6.5.7p3).
fn shifted(what: Op, left: IntegerType, x: u64, right: IntegerType, y: u64) -> Option<u64>
    requires left { is_whole left ≡ true }
    requires right { is_whole right ≡ true }
    ensures { result ≡ shifted what left x right y }
{
    let own = promoted(left);
    let (x, y) = (as_type(left, own, x), as_type(right, promoted(right), y));
    compute(what, size_of(own), own.signed, x, y)
}

/// Whether two integers are equal (C11 6.5.9p3-4).
fn are_equal(left: IntegerType, x: u64, right: IntegerType, y: u64) -> bool
    requires left { is_whole left ≡ true }
    requires right { is_whole right ≡ true }
    ensures { result ≡ are_equal left x right y }
{
    let both = common(left, right);
    let (x, y) = (as_type(left, both, x), as_type(right, both, y));
    equal(size_of(both), x, y)
}
