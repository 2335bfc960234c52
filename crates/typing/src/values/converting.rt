ghost use Rattle.std.specs.Prelude.{◌≡◌, true};
ghost use Rattle.typing.specs.ctypes.Integers.{promoted, common};
ghost use Rattle.typing.specs.values.Values.{is_whole, as_type};

use crate::ctypes::IntegerType;
use crate::values::whole::size_of;
use arithmetic::{convert, convert_to_truth};

/// The type of an integer as an operand (C11 6.3.1.1p2).
pub(crate) fn promoted(of: IntegerType) -> IntegerType
    requires { is_whole of ≡ true }
    ensures is { result ≡ promoted of }
    ensures whole { is_whole result ≡ true }
{
    of.promoted()
}

/// The type of an operation on integers of two types (C11 6.3.1.8).
pub(crate) fn common(left: IntegerType, right: IntegerType) -> IntegerType
    requires left { is_whole left ≡ true }
    requires right { is_whole right ≡ true }
    ensures is { result ≡ common left right }
    ensures whole { is_whole result ≡ true }
{
    left.common(right)
}

/// An integer of one type as one of another (C11 6.3.1.2, 6.3.1.3).
pub(crate) fn as_type(from: IntegerType, to: IntegerType, bits: u64) -> u64
    requires from { is_whole from ≡ true }
    requires to { is_whole to ≡ true }
    ensures { result ≡ as_type from to bits }
{
    if to.truth {
        convert_to_truth(size_of(from), bits)
    } else {
        convert(size_of(from), from.signed, size_of(to), bits)
    }
}
