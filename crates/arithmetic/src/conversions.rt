ghost use Rattle.std.specs.Prelude.{◌≡◌};
ghost use Rattle.arithmetic.specs.Size.{bytes};
ghost use Rattle.arithmetic.specs.Conversion.{converted, truth};

use crate::bits::{extended, lowest};
use crate::size::Size;

/// Converts an integer of size `from`, with a sign or without, to size `to` (C11 6.3.1.3).
///
/// A value that the new type does not have is taken modulo 2^n.
pub fn convert(from: Size, signed: bool, to: Size, number: u64) -> u64
    ensures { result ≡ converted (bytes from) signed (bytes to) number }
{
    lowest(extended(number, from, signed), to)
}

/// Converts an integer to `_Bool`: 0 where it is 0, and else 1 (C11 6.3.1.2p1).
pub fn convert_to_truth(size: Size, number: u64) -> u64
    ensures { result ≡ truth (bytes size) number }
{
    if lowest(number, size) == 0 { 0 } else { 1 }
}
