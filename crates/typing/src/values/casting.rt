ghost use Rattle.std.specs.Prelude.{◌≡◌, None, Some, if◌then◌else◌};
ghost use Rattle.typing.specs.ctypes.Kinds.{Kind, integer_in};
ghost use Rattle.typing.specs.values.Values.{is_whole, cast_value, word_of, offset_as};

use crate::ctypes::IntegerType;
use crate::values::converting::as_type;
use crate::values::whole::{is_whole, size_of, whole};
use arithmetic::{Size, convert, convert_to_truth};

/// The value of a cast to a type of integers, where it has one (C11 6.5.4, 6.6p6).
///
/// Both types are given, if they are ones of integers, and the value of the operand, if it has one.
pub fn cast_value(
    to: Option<IntegerType>,
    from: Option<IntegerType>,
    bits: Option<u64>,
) -> Option<u64>
    ensures { (target source : Kind) → integer_in target ≡ to → integer_in source ≡ from → result ≡ cast_value target source bits }
{
    match (whole(to), whole(from), bits) {
        (Some(to), Some(from), Some(bits)) => Some(as_type(from, to, bits)),
        _ => None,
    }
}

/// A value as a word of 64 bits, which wraps: a negative number is its complement modulo 2^64.
pub fn word_of(of: Option<IntegerType>, bits: Option<u64>) -> Option<u64>
    ensures { (kind : Kind) → integer_in kind ≡ of → result ≡ word_of kind bits }
{
    match (whole(of), bits) {
        (Some(of), Some(bits)) => Some(convert(size_of(of), of.signed, Size::Eight, bits)),
        _ => None,
    }
}

/// A word of 64 bits, without sign, as an integer of a type that the data layouts have (C11 6.3.1.2, 6.3.1.3).
pub fn offset_as(to: IntegerType, offset: u64) -> Option<u64>
    ensures { result ≡ (if is_whole to then Some (offset_as to offset) else None) }
{
    if !is_whole(to) {
        return None;
    }
    if to.truth {
        Some(convert_to_truth(Size::Eight, offset))
    } else {
        Some(convert(Size::Eight, false, size_of(to), offset))
    }
}
