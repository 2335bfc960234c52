ghost use Rattle.std.specs.Prelude.{◌≡◌, Bool, ℤ, pos, neg_ℤ, int_div, int_rem, if◌then◌else◌};
ghost use Rattle.arithmetic.specs.Size.{bytes};
ghost use Rattle.arithmetic.specs.Value.{bits, value};
ghost use Rattle.arithmetic.specs.Computing.{if_divides};

use crate::bits::{is_negative, lowest, magnitude};
use crate::size::Size;

/// The quotient of two integers, cut towards zero (C11 6.5.5p6); none for a zero divisor.
pub fn quotient(size: Size, signed: bool, left: u64, right: u64) -> Option<u64>
    ensures { result ≡ if_divides (value (bytes size) signed right)
        (bits (bytes size) (int_div (value (bytes size) signed left) (value (bytes size) signed right))) }
{
    let divisor = magnitude(right, size, signed);
    if divisor == 0 {
        return None;
    }
    let negative = is_negative(left, size, signed) != is_negative(right, size, signed);
    Some(with_sign(size, negative, magnitude(left, size, signed) / divisor))
}

/// What the quotient leaves of the left integer, with the sign of that one (C11 6.5.5p6); none for a zero divisor.
pub fn remainder(size: Size, signed: bool, left: u64, right: u64) -> Option<u64>
    ensures { result ≡ if_divides (value (bytes size) signed right)
        (bits (bytes size) (int_rem (value (bytes size) signed left) (value (bytes size) signed right))) }
{
    let divisor = magnitude(right, size, signed);
    if divisor == 0 {
        return None;
    }
    let negative = is_negative(left, size, signed);
    Some(with_sign(size, negative, magnitude(left, size, signed) % divisor))
}

/// The bits of a number, or of its opposite.
fn with_sign(size: Size, negative: bool, number: u64) -> u64
    ensures { result ≡ bits (bytes size) (if negative then neg_ℤ (pos number) else pos number) }
{
    if negative {
        return lowest(0_u64.wrapping_sub(number), size);
    }
    lowest(number, size)
}
