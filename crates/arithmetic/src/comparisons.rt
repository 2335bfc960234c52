ghost use Rattle.std.specs.Prelude.{◌≡◌, Bool};
ghost use Rattle.arithmetic.specs.Size.{bytes};
ghost use Rattle.arithmetic.specs.Comparing.{is_less, is_less_equal, is_equal};

use crate::bits::{is_negative, lowest};
use crate::size::Size;

/// Whether the value of the left integer is less than that of the right one (C11 6.5.8p6).
pub fn less(size: Size, signed: bool, left: u64, right: u64) -> bool
    ensures { result ≡ is_less (bytes size) signed left right }
{
    let negative = is_negative(left, size, signed);
    if negative != is_negative(right, size, signed) {
        return negative;
    }
    lowest(left, size) < lowest(right, size)
}

/// Whether the value of the left integer is not greater than that of the right one (C11 6.5.8p6).
pub fn less_equal(size: Size, signed: bool, left: u64, right: u64) -> bool
    ensures { result ≡ is_less_equal (bytes size) signed left right }
{
    !less(size, signed, right, left)
}

/// Whether two integers of one size are equal, with a sign or without (C11 6.5.9p3).
pub fn equal(size: Size, left: u64, right: u64) -> bool
    ensures { (signed : Bool) → result ≡ is_equal (bytes size) signed left right }
{
    lowest(left, size) == lowest(right, size)
}
