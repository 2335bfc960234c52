ghost use Rattle.std.specs.Prelude.{◌≡◌, true};
ghost use Rattle.arithmetic.specs.Value.{value, is_in_range};
ghost use Rattle.typing.specs.ctypes.Kinds.{Kind, integer_in};
ghost use Rattle.typing.specs.values.Values.{is_whole, int_bits, int_value, next_value};

use crate::ctypes::IntegerType;
use crate::values::whole::{size_of, whole};
use arithmetic::{Size, convert, less_equal};

/// The bits of the greatest `int` (C11 5.2.4.2.1), in four bytes or more.
const GREATEST: u64 = 0x7fff_ffff;

/// The bits of the least `int` in eight bytes (C11 5.2.4.2.1).
const LEAST: u64 = 0xffff_ffff_8000_0000;

/// The value of a constant of an enum as the bits of an `int`, where an `int` has it (C11 6.7.2.2p2).
///
/// The type of the expression is given, if that is one of integers, and its value, if it has one.
pub fn int_value(of: Option<IntegerType>, bits: Option<u64>) -> Option<u32>
    ensures { (kind : Kind) → integer_in kind ≡ of → result ≡ int_value kind bits }
{
    match (whole(of), bits) {
        (Some(of), Some(bits)) => int_of(of, bits),
        _ => None,
    }
}

/// The value of a constant of an enum that is not given: one more than that of the constant before it, which has these bits of an `int`, where an
/// `int` has that (C11 6.7.2.2p3).
pub fn next_value(before: u32) -> Option<u32>
    ensures { result ≡ next_value before }
{
    if u64::from(before) == GREATEST {
        None
    } else {
        Some(before.wrapping_add(1))
    }
}

/// An integer as the bits of an `int`, where an `int` has its value.
fn int_of(of: IntegerType, bits: u64) -> Option<u32>
    requires { is_whole of ≡ true }
    ensures { result ≡ int_bits (value of.bytes of.signed bits) }
{
    if is_int(of, bits) {
        Some(convert(size_of(of), of.signed, Size::Four, bits) as u32)
    } else {
        None
    }
}

/// Whether an `int` has the value of an integer.
fn is_int(of: IntegerType, bits: u64) -> bool
    requires { is_whole of ≡ true }
    ensures { result ≡ is_in_range 4 true (value of.bytes of.signed bits) }
{
    let word = convert(size_of(of), of.signed, Size::Eight, bits);
    let least = if of.signed { LEAST } else { 0 };
    less_equal(Size::Eight, of.signed, least, word)
        && less_equal(Size::Eight, of.signed, word, GREATEST)
}
