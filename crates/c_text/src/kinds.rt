//! Types by what the machine asks of them.
ghost use Rattle.std.specs.Prelude.{◌≡◌, ◌<◌, length, option_map};
ghost use Rattle.typing.specs.ctypes.Table.{type_at};
ghost use Rattle.typing.specs.ctypes.Kinds.{target_of};
ghost use Rattle.typing.specs.Idiom.{at_most};
ghost use Rattle.c_machine.specs.Program.{Program, size_of};
ghost use Rattle.c_machine.specs.Trees.{kind_in, step_of};
ghost use Rattle.c_text.specs.Kept.{kept, bytes_told};

use c_machine::{Kind, WholeType};
use cbase::Extent;
use typing::ctypes::{IntegerType, Shape, Types};

/// The type of that number by what an access and an operator ask of it, in a program that has these structs.
///
/// It is `None` where the items of a pointer or an array, or a struct, have more than 65,536 bytes, of which no size is kept, and for an integer of
/// another number of bytes than 1, 2, 4 or 8, which no program has. It takes one step, and no memory.
pub fn type_kind(types: &Types, number: u32) -> Option<Kind>
    requires { number < length types.now.types }
    ensures { (p : Program) → p.structs ≡ types.now.structs → result ≡ kept (kind_in p (type_at types.now.types number)) }
{
    match types.shape(number) {
        Shape::Void => Some(Kind::Void),
        Shape::Bool => integer_kind(1, false, true),
        Shape::Int { bytes, signed } => integer_kind(bytes, signed, false),
        Shape::Pointer(item) => pointer_kind(step_of(types, item)),
        Shape::Array(item, _) => array_kind(step_of(types, item)),
        Shape::Struct(_) => struct_kind(bytes_of(types, number)),
    }
}

/// A type of integers, where the data layouts have it.
fn integer_kind(bytes: u8, signed: bool, truth: bool) -> Option<Kind>
    ensures { result ≡ kept (Kind.Integer (record { bytes = bytes; signed = signed; truth = truth })) }
{
    WholeType::of(IntegerType {
        bytes,
        signed,
        truth,
    })
    .map(Kind::Integer)
}

/// Pointers to items of so many bytes, where the bytes are kept.
fn pointer_kind(bytes: Option<u64>) -> Option<Kind>
    ensures { result ≡ option_map Kind.Pointer bytes }
{
    bytes.map(Kind::Pointer)
}

/// Arrays of items of so many bytes, where the bytes are kept.
fn array_kind(bytes: Option<u64>) -> Option<Kind>
    ensures { result ≡ option_map Kind.Array bytes }
{
    bytes.map(Kind::Array)
}

/// Structs of so many bytes, where the bytes are kept.
fn struct_kind(bytes: Option<u64>) -> Option<Kind>
    ensures { result ≡ option_map Kind.Struct bytes }
{
    bytes.map(Kind::Struct)
}

/// In how many bytes a pointer to the type of that number counts: in one for `void` (C11 6.5.6p8).
fn step_of(types: &Types, number: u32) -> Option<u64>
    requires { number < length types.now.types }
    ensures { (p : Program) → p.structs ≡ types.now.structs
        → (let t = type_at types.now.types number in result ≡ at_most (step_of p t (target_of p.structs t))) }
{
    match types.shape(number) {
        Shape::Void => Some(1),
        _ => bytes_of(types, number),
    }
}

/// How many bytes an object of the type of that number has: none for more than 65,536, and 0 for an incomplete type.
pub(crate) fn bytes_of(types: &Types, number: u32) -> Option<u64>
    requires { number < length types.now.types }
    ensures { (p : Program) → p.structs ≡ types.now.structs → result ≡ at_most (size_of p (type_at types.now.types number)) }
{
    bytes_told(types.size(number))
}

/// A size as a number of bytes: none for more than 65,536, and 0 for an incomplete type.
fn bytes_told(size: Extent) -> Option<u64>
    ensures { result ≡ bytes_told size }
{
    match size {
        Extent::Bytes(count) => Some(u64::from(count)),
        Extent::Incomplete => Some(0),
        Extent::TooLarge => None,
    }
}
