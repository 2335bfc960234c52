ghost use Rattle.std.specs.Prelude.{◌≡◌, ◌<◌, ℕ, List, length, IfOk, OnErr};
ghost use Rattle.cbase.specs.declared.ctype.CType.{CType};
ghost use Rattle.typing.specs.ctypes.Table.{type_at};
ghost use Rattle.typing.specs.ctypes.Operands.{operand_of, kind_at, seen_at, found_at, KindBelow, SeenBelow, FoundBelow, Answers};
ghost use Rattle.typing.specs.ctypes.Unary.{signed, followed, unary, is_counted, counted, measured};

use crate::ctypes::binary::is_scalar;
use crate::ctypes::found::{Broken, Found, LVALUE, OPERANDS, Outcome, settle};
use crate::ctypes::kind::{Kind, Target, has_size};
use crate::ctypes::operand::{Operand, Seen};
use crate::ctypes::types::Types;
use cbase::{NoMemory, UnaryOp};

/// The type of a unary operation (C11 6.5.3.2, 6.5.3.3), or what is broken at its operator.
///
/// `*` gives the type that the pointer leads to, which may be incomplete: it is the load that asks for a complete
/// one. `&` of an array is a pointer to the array.
pub fn unary_type(types: &mut Types, op: UnaryOp, operand: Operand) -> Result<Outcome, NoMemory>
    requires { operand.ctype < length types.old.types }
    ensures ok { IfOk result (λ outcome. Answers types.old.types (unary op (operand_of types.old operand)) types.new.types outcome) }
    ensures structs { types.new.structs ≡ types.old.structs }
    ensures err { OnErr result (types.new ≡ types.old) }
{
    let found = operated_alone(op, operand.seen(types));
    settle(types, found)
}

/// The type of `++` and `--`, before or behind their operand (C11 6.5.2.4, 6.5.3.1), or what is broken there.
///
/// It is the operand's own type. Of an array, a struct, `void` and a pointer to an incomplete struct it is rule 4,
/// else of what is no lvalue rule 8.
pub fn count_type(types: &mut Types, operand: Operand) -> Result<Outcome, NoMemory>
    requires { operand.ctype < length types.old.types }
    ensures ok { IfOk result (λ outcome. Answers types.old.types (counted (operand_of types.old operand)) types.new.types outcome) }
    ensures structs { types.new.structs ≡ types.old.structs }
    ensures err { OnErr result (types.new ≡ types.old) }
{
    let found = counted(operand.seen(types));
    settle(types, found)
}

/// The type of `sizeof` of the type of that number (C11 6.5.3.4): that of sizes, or rule 3.
///
/// An array is no pointer here.
pub fn sizeof_type(types: &mut Types, number: u32) -> Result<Outcome, NoMemory>
    requires { number < length types.old.types }
    ensures ok { IfOk result (λ outcome. Answers types.old.types (measured types.old.structs (type_at types.old.types number)) types.new.types outcome) }
    ensures structs { types.new.structs ≡ types.old.structs }
    ensures err { OnErr result (types.new ≡ types.old) }
{
    let found = if has_size(types, number) {
        Found::Integer {
            bytes: 8,
            signed: false,
        }
    } else {
        Found::Broken(Broken::Rule(3))
    };
    settle(types, found)
}

/// What is found of a unary operator.
fn operated_alone(op: UnaryOp, operand: Seen) -> Found
    ensures is { (types : List CType) → found_at types result ≡ unary op (seen_at types operand) }
    ensures below { (count : ℕ) → SeenBelow count operand → FoundBelow count result }
{
    match op {
        UnaryOp::Plus | UnaryOp::Minus | UnaryOp::Flip => signed(operand.kind),
        UnaryOp::Follow => followed(operand.kind),
        UnaryOp::Not => {
            if is_scalar(operand.kind) {
                Found::int()
            } else {
                Found::Broken(OPERANDS)
            }
        }
        UnaryOp::Address => {
            if operand.lvalue {
                Found::Pointer(operand.ctype)
            } else {
                Found::Broken(LVALUE)
            }
        }
    }
}

/// What is found of `+`, `-` and `~`.
fn signed(kind: Kind) -> Found
    ensures is { (types : List CType) → found_at types result ≡ signed (kind_at types kind) }
    ensures below { (count : ℕ) → FoundBelow count result }
{
    match kind {
        Kind::Integer(of) => Found::integer(of.promoted()),
        _ => Found::Broken(OPERANDS),
    }
}

/// What is found of `*`.
fn followed(kind: Kind) -> Found
    ensures is { (types : List CType) → found_at types result ≡ followed (kind_at types kind) }
    ensures below { (count : ℕ) → KindBelow count kind → FoundBelow count result }
{
    match kind {
        Kind::Pointer(item, _) | Kind::Array(item, _) => Found::Same(item),
        Kind::Integer(_) | Kind::Struct(_) | Kind::Void => Found::Broken(OPERANDS),
    }
}

/// What is found of `++` and `--`.
fn counted(operand: Seen) -> Found
    ensures is { (types : List CType) → found_at types result ≡ counted (seen_at types operand) }
    ensures below { (count : ℕ) → SeenBelow count operand → FoundBelow count result }
{
    if !is_counted(operand.kind) {
        return Found::Broken(OPERANDS);
    }
    if !operand.lvalue {
        return Found::Broken(LVALUE);
    }
    Found::Same(operand.ctype)
}

/// Whether values of that kind are counted up and down.
fn is_counted(kind: Kind) -> bool
    ensures { (types : List CType) → result ≡ is_counted (kind_at types kind) }
{
    match kind {
        Kind::Integer(_) | Kind::Pointer(_, Target::Void | Target::Sized) => true,
        Kind::Pointer(_, Target::Unsized) | Kind::Array(_, _) | Kind::Struct(_) | Kind::Void => {
            false
        }
    }
}
