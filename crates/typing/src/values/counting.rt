ghost use Rattle.std.specs.Prelude.{◌≡◌};
ghost use Rattle.typing.specs.values.Values.{count_of};

use crate::ctypes::IntegerType;
use crate::values::whole::{is_whole, size_of};
use arithmetic::{Size, convert, less};

/// The value of an integer that is 1 or more, as the length of an array is (C11 6.7.6.2p1).
///
/// Zero and negative numbers give none, and neither does a type that the data layouts do not have.
pub fn count_of(of: IntegerType, bits: u64) -> Option<u64>
    ensures { result ≡ count_of of bits }
{
    if !is_whole(of) {
        return None;
    }
    let size = size_of(of);
    if less(size, of.signed, 0, bits) {
        Some(convert(size, of.signed, Size::Eight, bits))
    } else {
        None
    }
}
