ghost use Rattle.std.specs.Prelude.{◌≡◌, Bool};
ghost use Rattle.arithmetic.specs.Size.{bytes};
ghost use Rattle.arithmetic.specs.Computing.{negated, complemented};

use crate::bits::{all_ones, lowest};
use crate::size::Size;
use crate::wrapping::difference;

/// What unary `-` gives, with a sign or without (C11 6.5.3.3p3). The least number of a signed type is its own.
pub fn negate(size: Size, number: u64) -> u64
    ensures { (signed : Bool) → result ≡ negated (bytes size) signed number }
{
    difference(size, 0, number)
}

/// What `~` gives (C11 6.5.3.3p4).
pub fn complement(size: Size, number: u64) -> u64
    ensures { result ≡ complemented (bytes size) number }
{
    all_ones(size) - lowest(number, size)
}
