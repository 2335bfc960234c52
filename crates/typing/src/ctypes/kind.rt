ghost use Rattle.std.specs.Prelude.{◌≡◌, ◌<◌, ℕ, List, length};
ghost use Rattle.cbase.specs.declared.ctype.CType.{CType};
ghost use Rattle.typing.specs.ctypes.Table.{type_at};
ghost use Rattle.typing.specs.ctypes.Kinds.{kind_of, target_of, decayed, has_size};
ghost use Rattle.typing.specs.ctypes.Operands.{kind_at, KindBelow};

use crate::ctypes::shape::Shape;
use crate::ctypes::types::Types;
use cbase::Extent;

/// A type of integers.
#[derive(Clone, Copy)]
pub struct IntegerType {
    /// How many bytes they have.
    pub bytes: u8,
    /// Whether they have a sign.
    pub signed: bool,
    /// Whether it is `_Bool`.
    pub truth: bool,
}

/// What a pointer leads to.
#[derive(Clone, Copy)]
pub enum Target {
    /// `void`, whose pointers count bytes.
    Void,
    /// A complete type.
    Sized,
    /// An incomplete type other than `void`.
    Unsized,
}

/// A type by what operators ask of it.
#[derive(Clone, Copy)]
pub(crate) enum Kind {
    /// An integer, or `_Bool`.
    Integer(IntegerType),
    /// A pointer to the type of that number.
    Pointer(u32, Target),
    /// An array of items of the type of that number.
    Array(u32, Target),
    /// The struct of that number.
    Struct(u32),
    /// `void`.
    Void,
}

impl Kind {
    /// The kind of the type of that number.
    pub(crate) fn of(types: &Types, number: u32) -> Kind
        requires { number < length types.now.types }
        ensures is { kind_at types.now.types result ≡ kind_of types.now.structs (type_at types.now.types number) }
        ensures below { KindBelow (length types.now.types) result }
    {
        match types.shape(number) {
            Shape::Void => Kind::Void,
            Shape::Bool => Kind::Integer(IntegerType {
                bytes: 1,
                signed: false,
                truth: true,
            }),
            Shape::Int { bytes, signed } => Kind::Integer(IntegerType::new(bytes, signed)),
            Shape::Pointer(item) => Kind::Pointer(item, Target::of(types, item)),
            Shape::Struct(of) => Kind::Struct(of),
            Shape::Array(item, _) => Kind::Array(item, Target::of(types, item)),
        }
    }

    /// The kind of a value: an array is a pointer to its first item (C11 6.3.2.1p3).
    pub(crate) fn decayed(self) -> Kind
        ensures is { (types : List CType) → kind_at types result ≡ decayed (kind_at types self) }
        ensures below { (count : ℕ) → KindBelow count self → KindBelow count result }
    {
        match self {
            Kind::Array(item, target) => Kind::Pointer(item, target),
            other => other,
        }
    }
}

impl Target {
    /// What a pointer to the type of that number leads to.
    fn of(types: &Types, number: u32) -> Target
        requires { number < length types.now.types }
        ensures { result ≡ target_of types.now.structs (type_at types.now.types number) }
    {
        match types.shape(number) {
            Shape::Void => Target::Void,
            _ => {
                if has_size(types, number) {
                    Target::Sized
                } else {
                    Target::Unsized
                }
            }
        }
    }
}

/// Whether the type of that number is complete (C11 6.2.5p1).
pub(crate) fn has_size(types: &Types, number: u32) -> bool
    requires { number < length types.now.types }
    ensures { result ≡ has_size types.now.structs (type_at types.now.types number) }
{
    match types.size(number) {
        Extent::Incomplete => false,
        Extent::Bytes(_) | Extent::TooLarge => true,
    }
}
