ghost use Rattle.std.specs.Prelude.{◌≡◌, ◌<◌, ℕ, List, length, IfOk, OnErr};
ghost use Rattle.cbase.specs.declared.ctype.CType.{CType};
ghost use Rattle.typing.specs.ctypes.Table.{type_at};
ghost use Rattle.typing.specs.ctypes.Binary.{group_of, arithmetic, shifted, moved, added, subtracted, ordered, equated, is_scalar, tested, sequenced, operated, binary};
ghost use Rattle.typing.specs.ctypes.Operands.{operand_of, kind_at, seen_at, found_at, KindBelow, SeenBelow, FoundBelow, Answers};

use crate::ctypes::found::{Broken, Found, OPERANDS, Outcome, settle};
use crate::ctypes::kind::{Kind, Target};
use crate::ctypes::operand::{Operand, Seen};
use crate::ctypes::types::Types;
use cbase::{BinaryOp, NoMemory};

/// The binary operators that ask the same of their operands.
#[derive(Clone, Copy)]
pub enum Group {
    /// `*`, `/`, `%`, `&`, `^` and `|`.
    Arithmetic,
    /// `<<` and `>>`.
    Shift,
    /// `+`.
    Sum,
    /// `-`.
    Difference,
    /// `<`, `>`, `<=` and `>=`.
    Order,
    /// `==` and `!=`.
    Equality,
    /// `&&` and `||`.
    Logic,
    /// The comma.
    Sequence,
}

/// The type of a binary operation (C11 6.5.5 to 6.5.14 and 6.5.17), or what is broken at its operator.
///
/// An array is seen as a pointer to its first item. The pointers' difference is construct 17 and their order
/// construct 16; operands of other types than the operator takes are rule 4. Where memory is wanting all stays as
/// it was, as for each operator here, and the table of types only grows.
pub fn binary_type(
    types: &mut Types,
    op: BinaryOp,
    left: Operand,
    right: Operand,
) -> Result<Outcome, NoMemory>
    requires left { left.ctype < length types.old.types }
    requires right { right.ctype < length types.old.types }
    ensures ok { IfOk result (λ outcome. Answers types.old.types (binary op (operand_of types.old left) (operand_of types.old right)) types.new.types outcome) }
    ensures structs { types.new.structs ≡ types.old.structs }
    ensures err { OnErr result (types.new ≡ types.old) }
{
    let found = operated(group_of(op), left.seen(types), right.seen(types));
    settle(types, found)
}

/// The group of an operator.
pub(crate) fn group_of(op: BinaryOp) -> Group
    ensures { result ≡ group_of op }
{
    match op {
        BinaryOp::Mul
        | BinaryOp::Div
        | BinaryOp::Rem
        | BinaryOp::And
        | BinaryOp::Xor
        | BinaryOp::Or => Group::Arithmetic,
        BinaryOp::Left | BinaryOp::Right => Group::Shift,
        BinaryOp::Add => Group::Sum,
        BinaryOp::Sub => Group::Difference,
        BinaryOp::Less | BinaryOp::Greater | BinaryOp::LessEqual | BinaryOp::GreaterEqual => {
            Group::Order
        }
        BinaryOp::Equal | BinaryOp::NotEqual => Group::Equality,
        BinaryOp::Both | BinaryOp::Either => Group::Logic,
        BinaryOp::Comma => Group::Sequence,
    }
}

/// What is found of an operator of a group.
pub(crate) fn operated(group: Group, left: Seen, right: Seen) -> Found
    ensures is { (types : List CType) → found_at types result ≡ operated group (seen_at types left) (seen_at types right) }
    ensures below { (count : ℕ) → SeenBelow count left → SeenBelow count right → FoundBelow count result }
{
    let first = left.kind.decayed();
    let second = right.kind.decayed();
    match group {
        Group::Arithmetic => arithmetic(first, second),
        Group::Shift => shifted(first, second),
        Group::Sum => added(first, second),
        Group::Difference => subtracted(first, second),
        Group::Order => ordered(first, second),
        Group::Equality => equated(first, left.null, second, right.null),
        Group::Logic => tested(left.kind, right.kind),
        Group::Sequence => sequenced(left.kind, right.kind, right.ctype),
    }
}

/// What is found of `*`, `/`, `%`, `&`, `^` and `|`.
fn arithmetic(left: Kind, right: Kind) -> Found
    ensures is { (types : List CType) → found_at types result ≡ arithmetic (kind_at types left) (kind_at types right) }
    ensures below { (count : ℕ) → FoundBelow count result }
{
    match (left, right) {
        (Kind::Integer(left), Kind::Integer(right)) => Found::integer(left.common(right)),
        _ => Found::Broken(OPERANDS),
    }
}

/// What is found of a shift.
fn shifted(left: Kind, right: Kind) -> Found
    ensures is { (types : List CType) → found_at types result ≡ shifted (kind_at types left) (kind_at types right) }
    ensures below { (count : ℕ) → FoundBelow count result }
{
    match (left, right) {
        (Kind::Integer(left), Kind::Integer(_)) => Found::integer(left.promoted()),
        _ => Found::Broken(OPERANDS),
    }
}

/// What is found of a pointer that is moved by an integer.
fn moved(item: u32, target: Target) -> Found
    ensures is { (types : List CType) → found_at types result ≡ moved (type_at types item) target }
    ensures below { (count : ℕ) → item < count → FoundBelow count result }
{
    match target {
        Target::Unsized => Found::Broken(OPERANDS),
        Target::Void | Target::Sized => Found::Pointer(item),
    }
}

/// What is found of `+`.
fn added(left: Kind, right: Kind) -> Found
    ensures is { (types : List CType) → found_at types result ≡ added (kind_at types left) (kind_at types right) }
    ensures below { (count : ℕ) → KindBelow count left → KindBelow count right → FoundBelow count result }
{
    match (left, right) {
        (Kind::Integer(left), Kind::Integer(right)) => Found::integer(left.common(right)),
        (Kind::Pointer(item, target), Kind::Integer(_))
        | (Kind::Integer(_), Kind::Pointer(item, target)) => moved(item, target),
        _ => Found::Broken(OPERANDS),
    }
}

/// What is found of `-`.
fn subtracted(left: Kind, right: Kind) -> Found
    ensures is { (types : List CType) → found_at types result ≡ subtracted (kind_at types left) (kind_at types right) }
    ensures below { (count : ℕ) → KindBelow count left → KindBelow count right → FoundBelow count result }
{
    match (left, right) {
        (Kind::Integer(left), Kind::Integer(right)) => Found::integer(left.common(right)),
        (Kind::Pointer(item, target), Kind::Integer(_)) => moved(item, target),
        (Kind::Pointer(_, _), Kind::Pointer(_, _)) => Found::Broken(Broken::Construct(17)),
        _ => Found::Broken(OPERANDS),
    }
}

/// What is found of `<`, `>`, `<=` and `>=`.
fn ordered(left: Kind, right: Kind) -> Found
    ensures is { (types : List CType) → found_at types result ≡ ordered (kind_at types left) (kind_at types right) }
    ensures below { (count : ℕ) → FoundBelow count result }
{
    match (left, right) {
        (Kind::Integer(_), Kind::Integer(_)) => Found::int(),
        (Kind::Pointer(_, _), Kind::Pointer(_, _)) => Found::Broken(Broken::Construct(16)),
        _ => Found::Broken(OPERANDS),
    }
}

/// What is found of `==` and `!=`.
fn equated(left: Kind, left_null: bool, right: Kind, right_null: bool) -> Found
    ensures is { (types : List CType) → found_at types result ≡ equated (kind_at types left) left_null (kind_at types right) right_null }
    ensures below { (count : ℕ) → FoundBelow count result }
{
    let fits = match (left, right) {
        (Kind::Integer(_), Kind::Integer(_)) | (Kind::Pointer(_, _), Kind::Pointer(_, _)) => true,
        (Kind::Pointer(_, _), Kind::Integer(_)) => right_null,
        (Kind::Integer(_), Kind::Pointer(_, _)) => left_null,
        _ => false,
    };
    if fits {
        Found::int()
    } else {
        Found::Broken(OPERANDS)
    }
}

/// Whether values of that kind are conditions: integers and pointers (C11 6.2.5p21).
pub(crate) fn is_scalar(kind: Kind) -> bool
    ensures { (types : List CType) → result ≡ is_scalar (kind_at types kind) }
{
    match kind {
        Kind::Integer(_) | Kind::Pointer(_, _) | Kind::Array(_, _) => true,
        Kind::Struct(_) | Kind::Void => false,
    }
}

/// What is found of `&&` and `||`.
fn tested(left: Kind, right: Kind) -> Found
    ensures is { (types : List CType) → found_at types result ≡ tested (kind_at types left) (kind_at types right) }
    ensures below { (count : ℕ) → FoundBelow count result }
{
    if is_scalar(left) && is_scalar(right) {
        Found::int()
    } else {
        Found::Broken(OPERANDS)
    }
}

/// What is found of the comma.
fn sequenced(left: Kind, right: Kind, ctype: u32) -> Found
    ensures is { (types : List CType) → found_at types result ≡ sequenced (kind_at types left) (kind_at types right) (type_at types ctype) }
    ensures below { (count : ℕ) → KindBelow count right → ctype < count → FoundBelow count result }
{
    match (left, right) {
        (Kind::Struct(_), _) | (_, Kind::Struct(_)) => Found::Broken(OPERANDS),
        (_, Kind::Array(item, _)) => Found::Pointer(item),
        _ => Found::Same(ctype),
    }
}
