ghost use Rattle.std.specs.Prelude.{◌≡◌, ◌<◌, ℕ, List, length, IfOk, OnErr};
ghost use Rattle.cbase.specs.declared.ctype.CType.{CType};
ghost use Rattle.typing.specs.ctypes.Table.{type_at};
ghost use Rattle.typing.specs.ctypes.Binary.{is_scalar};
ghost use Rattle.typing.specs.ctypes.Converting.{cast, converts};
ghost use Rattle.typing.specs.ctypes.Kinds.{kind_of, decayed};
ghost use Rattle.typing.specs.ctypes.Operands.{operand_of, kind_at, found_at, FoundBelow, Answers};

use crate::ctypes::binary;
use crate::ctypes::found::{Broken, Found, OPERANDS, Outcome, settle};
use crate::ctypes::kind::Kind;
use crate::ctypes::operand::Operand;
use crate::ctypes::types::Types;
use cbase::NoMemory;

/// The type of a cast to the type of number `to` (C11 6.5.4), or what is broken at it.
///
/// `is_offsetof` says that it is the one cast of the offsetof idiom. A cast between a pointer and an integer other
/// than those that are taken is construct 15; one to an array or a struct, of a struct, and of a `void` expression to
/// anything but `void`, rule 4.
pub fn cast_type(
    types: &mut Types,
    to: u32,
    operand: Operand,
    is_offsetof: bool,
) -> Result<Outcome, NoMemory>
    requires to { to < length types.old.types }
    requires operand { operand.ctype < length types.old.types }
    ensures ok { IfOk result (λ outcome. Answers types.old.types (cast (kind_of types.old.structs (type_at types.old.types to)) (type_at types.old.types to) (decayed (operand_of types.old operand).kind) operand.null is_offsetof) types.new.types outcome) }
    ensures structs { types.new.structs ≡ types.old.structs }
    ensures err { OnErr result (types.new ≡ types.old) }
{
    let target = Kind::of(types, to);
    let from = operand.seen(types).kind.decayed();
    let found = cast(target, to, from, operand.null, is_offsetof);
    settle(types, found)
}

/// Whether the value of an operand converts without a cast to the type of number `to` (C11 6.5.16.1).
///
/// So arguments are converted, values that are returned or assigned, and initialisers. Where it does not, rule 5 is
/// broken at its expression.
pub fn converts(types: &Types, to: u32, operand: Operand) -> bool
    requires to { to < length types.now.types }
    requires operand { operand.ctype < length types.now.types }
    ensures { result ≡ converts (kind_of types.now.structs (type_at types.now.types to)) (decayed (operand_of types.now operand).kind) operand.null }
{
    let target = Kind::of(types, to);
    let from = operand.seen(types).kind.decayed();
    kind_converts(target, from, operand.null)
}

/// Whether an operand is a condition (C11 6.8.4.1p1, 6.8.5p2): where it is none, rule 4 is broken at its expression.
pub fn is_condition(types: &Types, operand: Operand) -> bool
    requires { operand.ctype < length types.now.types }
    ensures { result ≡ is_scalar (operand_of types.now operand).kind }
{
    binary::is_scalar(operand.seen(types).kind)
}

/// What is found of a cast.
fn cast(to: Kind, ctype: u32, from: Kind, null: bool, is_offsetof: bool) -> Found
    ensures is { (types : List CType) → found_at types result ≡ cast (kind_at types to) (type_at types ctype) (kind_at types from) null is_offsetof }
    ensures below { (count : ℕ) → ctype < count → FoundBelow count result }
{
    let given_up = Found::Broken(Broken::Construct(15));
    match (to, from) {
        (Kind::Void, Kind::Struct(_)) => Found::Broken(OPERANDS),
        (Kind::Void, _)
        | (Kind::Integer(_), Kind::Integer(_))
        | (Kind::Pointer(_, _), Kind::Pointer(_, _)) => Found::Same(ctype),
        (Kind::Integer(to), Kind::Pointer(_, _)) => {
            if to.truth || is_offsetof {
                Found::Same(ctype)
            } else {
                given_up
            }
        }
        (Kind::Pointer(_, _), Kind::Integer(_)) => {
            if null { Found::Same(ctype) } else { given_up }
        }
        _ => Found::Broken(OPERANDS),
    }
}

/// Whether a value of one kind converts to another kind without a cast.
pub(crate) fn kind_converts(to: Kind, from: Kind, null: bool) -> bool
    ensures { (types : List CType) → result ≡ converts (kind_at types to) (kind_at types from) null }
{
    match (to, from) {
        (Kind::Integer(_), Kind::Integer(_)) | (Kind::Pointer(_, _), Kind::Pointer(_, _)) => true,
        (Kind::Integer(to), Kind::Pointer(_, _)) => to.truth,
        (Kind::Pointer(_, _), Kind::Integer(_)) => null,
        (Kind::Struct(to), Kind::Struct(from)) => to == from,
        _ => false,
    }
}
