ghost use Rattle.std.specs.Prelude.{◌≡◌, ◌<◌, ℕ, List, length, IfOk, OnErr};
ghost use Rattle.cbase.specs.declared.ctype.CType.{CType};
ghost use Rattle.typing.specs.ctypes.Binary.{int_type};
ghost use Rattle.typing.specs.ctypes.Broken.{Judgement};
ghost use Rattle.typing.specs.ctypes.Integers.{type_of_integer};
ghost use Rattle.typing.specs.ctypes.Operands.{found_at, FoundBelow, Answers};

use crate::ctypes::kind::IntegerType;
use crate::ctypes::shape::Shape;
use crate::ctypes::types::Types;
use cbase::NoMemory;

/// An operator has an operand of a type that it does not take.
pub(crate) const OPERANDS: Broken = Broken::Rule(4);

/// An operand must be an lvalue, and is none.
pub(crate) const LVALUE: Broken = Broken::Rule(8);

/// What is broken at an operator.
#[derive(Clone, Copy)]
pub enum Broken {
    /// The construct of that number stands there, which is given up.
    Construct(u8),
    /// The rule of typing of that number is broken.
    Rule(u8),
}

/// What is answered of an operation.
#[derive(Clone, Copy)]
pub enum Outcome {
    /// It has the type of that number.
    Typed(u32),
    /// That is broken, and nothing that comes before it.
    Broken(Broken),
}

/// What is found of an operation, before its type has a number.
#[derive(Clone, Copy)]
pub(crate) enum Found {
    /// It has the type of that number.
    Same(u32),
    /// It has the type of integers of so many bytes.
    Integer {
        /// How many bytes they have.
        bytes: u8,
        /// Whether they have a sign.
        signed: bool,
    },
    /// It is a pointer to the type of that number.
    Pointer(u32),
    /// It has no value.
    Void,
    /// That is broken.
    Broken(Broken),
}

impl Found {
    /// The type of integers, which is not `_Bool`.
    pub(crate) fn integer(of: IntegerType) -> Found
        ensures is { (types : List CType) → found_at types result ≡ Judgement.Typed (type_of_integer of) }
        ensures below { (count : ℕ) → FoundBelow count result }
    {
        Found::Integer {
            bytes: of.bytes,
            signed: of.signed,
        }
    }

    /// `int`, which is the type of what is true or false.
    pub(crate) fn int() -> Found
        ensures is { (types : List CType) → found_at types result ≡ Judgement.Typed int_type }
        ensures below { (count : ℕ) → FoundBelow count result }
    {
        Found::Integer {
            bytes: 4,
            signed: true,
        }
    }
}

/// Gives what was found its number.
pub(crate) fn settle(types: &mut Types, found: Found) -> Result<Outcome, NoMemory>
    requires { FoundBelow (length types.old.types) found }
    ensures ok { IfOk result (λ outcome. Answers types.old.types (found_at types.old.types found) types.new.types outcome) }
    ensures structs { types.new.structs ≡ types.old.structs }
    ensures err { OnErr result (types.new ≡ types.old) }
{
    let shape = match found {
        Found::Same(number) => return Ok(Outcome::Typed(number)),
        Found::Broken(broken) => return Ok(Outcome::Broken(broken)),
        Found::Integer { bytes, signed } => Shape::Int { bytes, signed },
        Found::Pointer(item) => Shape::Pointer(item),
        Found::Void => Shape::Void,
    };
    let number = types.number_of(shape)?;
    Ok(Outcome::Typed(number))
}
