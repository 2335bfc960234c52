ghost use Rattle.std.specs.Prelude.{◌≡◌, true};
ghost use Rattle.typing.specs.ctypes.Kinds.{Kind, integer_in};
ghost use Rattle.typing.specs.values.Values.{is_whole, of_unary, unary_value};

use crate::ctypes::IntegerType;
use crate::values::condition::is_true;
use crate::values::converting::{as_type, promoted};
use crate::values::whole::{size_of, whole};
use arithmetic::{complement, negate};
use cbase::UnaryOp;

/// The value of a unary operation, where it has one (C11 6.5.3.3, 6.6p6).
///
/// The operand is given by its type, if that is one of integers, and by its value, if it has one; what the operation
/// gives is a value of its own type. `&` and `*` have none.
pub fn unary_value(op: UnaryOp, of: Option<IntegerType>, bits: Option<u64>) -> Option<u64>
    ensures { (kind : Kind) → integer_in kind ≡ of → result ≡ unary_value op kind bits }
{
    match (whole(of), bits) {
        (Some(of), Some(bits)) => of_unary(op, of, bits),
        _ => None,
    }
}

/// The value of a unary operation on an integer.
fn of_unary(op: UnaryOp, of: IntegerType, bits: u64) -> Option<u64>
    requires { is_whole of ≡ true }
    ensures { result ≡ of_unary op of bits }
{
    let own = promoted(of);
    let operand = as_type(of, own, bits);
    match op {
        UnaryOp::Address | UnaryOp::Follow => None,
        UnaryOp::Plus => Some(operand),
        UnaryOp::Minus => Some(negate(size_of(own), operand)),
        UnaryOp::Flip => Some(complement(size_of(own), operand)),
        UnaryOp::Not => Some(u64::from(!is_true(bits))),
    }
}
