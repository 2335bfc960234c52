ghost use Rattle.std.specs.Prelude.{◌≡◌, Some, true};
ghost use Rattle.arithmetic.specs.Size.{bytes};
ghost use Rattle.typing.specs.ctypes.Integers.{int, promoted, common};
ghost use Rattle.typing.specs.values.Values.{is_whole, whole_in};

use arithmetic::Size;
use std::marker::Model;
use typing::ctypes::IntegerType;
use typing::values::is_whole;

/// A type of integers that the data layouts have: one of 1, 2, 4 or 8 bytes (C11 6.2.5p4-8).
#[derive(Clone, Copy)]
pub struct WholeType {
    of: IntegerType,
}

impl Model for WholeType {
    ghost use Rattle.std.specs.Prelude.{◌≡◌, true};
    ghost use Rattle.typing.specs.declared.ctypes.kind.IntegerType.{IntegerType};
    ghost use Rattle.typing.specs.values.Values.{is_whole};

    ghost Value = { IntegerType };

    ghost view = { λ t. t.of };

    ghost invariant = { λ t. is_whole t.of ≡ true };

    ghost inverse = { λ t. record { of = t } };
}

impl WholeType {
    /// A type of integers, where the data layouts have it.
    pub fn of(of: IntegerType) -> Option<WholeType>
        ensures { result ≡ whole_in (Some of) }
    {
        if is_whole(of) {
            Some(WholeType { of })
        } else {
            None
        }
    }

    /// `int` (C11 6.2.5p5).
    pub fn int() -> WholeType
        ensures { result ≡ int }
    {
        WholeType {
            of: IntegerType {
                bytes: 4,
                signed: true,
                truth: false,
            },
        }
    }

    /// How many bytes the integers have, whether they have a sign, and whether the type is `_Bool`.
    pub fn get(self) -> IntegerType
        ensures is { result ≡ self }
        ensures whole { is_whole result ≡ true }
    {
        self.of
    }

    /// The size of the integers.
    pub fn size(self) -> Size
        ensures { bytes result ≡ self.bytes }
    {
        match self.of.bytes {
            1 => Size::One,
            2 => Size::Two,
            4 => Size::Four,
            _ => Size::Eight,
        }
    }

    /// The type of an integer of this one as an operand (C11 6.3.1.1p2).
    pub fn promoted(self) -> WholeType
        ensures { result ≡ promoted self }
    {
        WholeType {
            of: self.of.promoted(),
        }
    }

    /// The type of an operation on integers of this type and of another one (C11 6.3.1.8).
    pub fn common(self, other: WholeType) -> WholeType
        ensures { result ≡ common self other }
    {
        WholeType {
            of: self.of.common(other.of),
        }
    }
}
