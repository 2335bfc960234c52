ghost use Rattle.std.specs.Prelude.{◌≡◌, ◌<◌, List, length};
ghost use Rattle.cbase.specs.declared.ctype.CType.{CType};
ghost use Rattle.typing.specs.ctypes.Table.{type_at};
ghost use Rattle.typing.specs.ctypes.Integers.{integer, promoted, common, wider};
ghost use Rattle.typing.specs.ctypes.Kinds.{kind_of, integer_in};
ghost use Rattle.typing.specs.ctypes.Operands.{kind_at};

use crate::ctypes::kind::{IntegerType, Kind};
use crate::ctypes::types::Types;

/// The type of integers that the type of that number is, if it is one: a type of integers of C, or `_Bool` (C11 6.2.5p17).
pub fn integer_type(types: &Types, number: u32) -> Option<IntegerType>
    requires { number < length types.now.types }
    ensures { result ≡ integer_in (kind_of types.now.structs (type_at types.now.types number)) }
{
    integer_of(Kind::of(types, number))
}

/// The type of integers that a kind is of, if it is of one.
fn integer_of(kind: Kind) -> Option<IntegerType>
    ensures { (types : List CType) → result ≡ integer_in (kind_at types kind) }
{
    match kind {
        Kind::Integer(of) => Some(of),
        Kind::Pointer(_, _) | Kind::Array(_, _) | Kind::Struct(_) | Kind::Void => None,
    }
}

impl IntegerType {
    /// The integers of so many bytes.
    pub(crate) fn new(bytes: u8, signed: bool) -> IntegerType
        ensures { result ≡ integer bytes signed }
    {
        IntegerType {
            bytes,
            signed,
            truth: false,
        }
    }

    /// The type of an integer of this one as an operand (C11 6.3.1.1p2).
    pub fn promoted(self) -> IntegerType
        ensures { result ≡ promoted self }
    {
        if self.bytes < 4 {
            IntegerType::new(4, true)
        } else {
            self
        }
    }

    /// The type of an operation on integers of this type and of another one (C11 6.3.1.8).
    pub fn common(self, other: IntegerType) -> IntegerType
        ensures { result ≡ common self other }
    {
        self.promoted().wider(other.promoted())
    }

    /// The one of two promoted types that has the values of both, as far as one has.
    fn wider(self, other: IntegerType) -> IntegerType
        ensures { result ≡ wider self other }
    {
        if self.bytes < other.bytes {
            other
        } else if other.bytes < self.bytes {
            self
        } else {
            IntegerType::new(self.bytes, self.signed && other.signed)
        }
    }
}
