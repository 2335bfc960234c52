ghost use Rattle.std.specs.Prelude.{◌≡◌, true, IfSome};
ghost use Rattle.arithmetic.specs.Size.{bytes};
ghost use Rattle.typing.specs.values.Values.{is_whole, whole_in};

use crate::ctypes::IntegerType;
use arithmetic::Size;

/// Whether the data layouts have a type of integers: one of 1, 2, 4 or 8 bytes (C11 6.2.5p4-8).
pub fn is_whole(of: IntegerType) -> bool
    ensures { result ≡ is_whole of }
{
    Size::of_bytes(u64::from(of.bytes)).is_some()
}

/// A type of integers, where it is there and the data layouts have it.
pub(crate) fn whole(of: Option<IntegerType>) -> Option<IntegerType>
    ensures is { result ≡ whole_in of }
    ensures whole { IfSome result (λ t. is_whole t ≡ true) }
{
    match of {
        Some(of) if is_whole(of) => Some(of),
        _ => None,
    }
}

/// The size of the integers of a type that the data layouts have.
pub(crate) fn size_of(of: IntegerType) -> Size
    requires { is_whole of ≡ true }
    ensures { bytes result ≡ of.bytes }
{
    match of.bytes {
        1 => Size::One,
        2 => Size::Two,
        4 => Size::Four,
        _ => Size::Eight,
    }
}
