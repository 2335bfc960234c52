ghost use Rattle.std.specs.Prelude.{◌≡◌};
ghost use Rattle.arithmetic.specs.Size.{bytes};
ghost use Rattle.arithmetic.specs.Computing.{computed};

use crate::bits::lowest;
use crate::comparisons::{less, less_equal};
use crate::divide::{quotient, remainder};
use crate::op::Op;
use crate::shift::{shift_left, shift_right};
use crate::size::Size;
use crate::wrapping::{difference, product, sum};

/// What an operator gives for two integers of a size, with a sign or without (C11 6.5.5 to 6.5.12).
///
/// A division by zero has no value, and neither has a shift by as many bits as the left integer has, or by more.
/// The amount of a shift is read whole and without sign, so a negative one has no value either. The comparisons
/// give 1 or 0.
pub fn compute(op: Op, size: Size, signed: bool, left: u64, right: u64) -> Option<u64>
    ensures { result ≡ computed op (bytes size) signed left right }
{
    match op {
        Op::Add => Some(sum(size, left, right)),
        Op::Sub => Some(difference(size, left, right)),
        Op::Mul => Some(product(size, left, right)),
        Op::Div => quotient(size, signed, left, right),
        Op::Rem => remainder(size, signed, left, right),
        Op::And => Some(lowest(left, size) & lowest(right, size)),
        Op::Or => Some(lowest(left, size) | lowest(right, size)),
        Op::Xor => Some(lowest(left, size) ^ lowest(right, size)),
        Op::Left => shift_left(size, left, right),
        Op::Right => shift_right(size, signed, left, right),
        Op::Less => Some(u64::from(less(size, signed, left, right))),
        Op::LessEqual => Some(u64::from(less_equal(size, signed, left, right))),
    }
}
