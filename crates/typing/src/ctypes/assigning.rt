ghost use Rattle.std.specs.Prelude.{◌≡◌, ◌<◌, ℕ, List, length, IfOk, OnErr};
ghost use Rattle.cbase.specs.declared.ctype.CType.{CType};
ghost use Rattle.typing.specs.ctypes.Table.{type_at};
ghost use Rattle.typing.specs.ctypes.Assigning.{is_assigned, assigned_type, assigned, has_assignment, goes_back, update_demands, updated};
ghost use Rattle.typing.specs.ctypes.Binary.{group_of};
ghost use Rattle.typing.specs.ctypes.Broken.{Judgement, judged};
ghost use Rattle.typing.specs.ctypes.Operands.{operand_of, kind_at, seen_at, found_at, SeenBelow, FoundBelow, Answers};

use crate::ctypes::binary::{Group, group_of, operated};
use crate::ctypes::casting::kind_converts;
use crate::ctypes::found::{Broken, Found, LVALUE, OPERANDS, Outcome, settle};
use crate::ctypes::kind::Kind;
use crate::ctypes::operand::{Operand, Seen};
use crate::ctypes::types::Types;
use cbase::{BinaryOp, NoMemory};

/// The type of `=` (C11 6.5.16.1), or what is broken at it.
///
/// That of its left side; of structs `void`, a choice of this project. An array or `void` on the left is rule 4, a
/// value that does not convert without a cast rule 5, a left side that is no lvalue rule 8, the first of them.
pub fn assignment_type(
    types: &mut Types,
    left: Operand,
    right: Operand,
) -> Result<Outcome, NoMemory>
    requires left { left.ctype < length types.old.types }
    requires right { right.ctype < length types.old.types }
    ensures ok { IfOk result (λ outcome. Answers types.old.types (assigned (operand_of types.old left) (operand_of types.old right)) types.new.types outcome) }
    ensures structs { types.new.structs ≡ types.old.structs }
    ensures err { OnErr result (types.new ≡ types.old) }
{
    let found = assigned(left.seen(types), right.seen(types));
    settle(types, found)
}

/// The type of `op=` (C11 6.5.16.2), or what is broken at it: that of its left side.
///
/// First comes what is broken at the operator; then, where what it gives does not go back to the left side, as an
/// integer to an integer or a pointer to its pointer, and for an operator that has no such form, rule 4; then rule 8,
/// where the left side is no lvalue.
pub fn update_type(
    types: &mut Types,
    op: BinaryOp,
    left: Operand,
    right: Operand,
) -> Result<Outcome, NoMemory>
    requires left { left.ctype < length types.old.types }
    requires right { right.ctype < length types.old.types }
    ensures ok { IfOk result (λ outcome. Answers types.old.types (updated op (operand_of types.old left) (operand_of types.old right)) types.new.types outcome) }
    ensures structs { types.new.structs ≡ types.old.structs }
    ensures err { OnErr result (types.new ≡ types.old) }
{
    let found = updated(op, left.seen(types), right.seen(types));
    settle(types, found)
}

/// What is found of `=`.
fn assigned(left: Seen, right: Seen) -> Found
    ensures is { (types : List CType) → found_at types result ≡ assigned (seen_at types left) (seen_at types right) }
    ensures below { (count : ℕ) → SeenBelow count left → FoundBelow count result }
{
    if !is_assigned(left.kind) {
        return Found::Broken(OPERANDS);
    }
    if !kind_converts(left.kind, right.kind.decayed(), right.null) {
        return Found::Broken(Broken::Rule(5));
    }
    if !left.lvalue {
        return Found::Broken(LVALUE);
    }
    assigned_type(left.kind, left.ctype)
}

/// Whether a value can be given to objects of that kind.
fn is_assigned(kind: Kind) -> bool
    ensures { (types : List CType) → result ≡ is_assigned (kind_at types kind) }
{
    match kind {
        Kind::Integer(_) | Kind::Pointer(_, _) | Kind::Struct(_) => true,
        Kind::Array(_, _) | Kind::Void => false,
    }
}

/// The type of `=`, by that of its left side.
fn assigned_type(kind: Kind, ctype: u32) -> Found
    ensures is { (types : List CType) → found_at types result ≡ Judgement.Typed (assigned_type (kind_at types kind) (type_at types ctype)) }
    ensures below { (count : ℕ) → ctype < count → FoundBelow count result }
{
    match kind {
        Kind::Struct(_) => Found::Void,
        _ => Found::Same(ctype),
    }
}

/// What is found of `op=`.
fn updated(op: BinaryOp, left: Seen, right: Seen) -> Found
    ensures is { (types : List CType) → found_at types result ≡ updated op (seen_at types left) (seen_at types right) }
    ensures below { (count : ℕ) → SeenBelow count left → SeenBelow count right → FoundBelow count result }
{
    let group = group_of(op);
    match operated(group, left, right) {
        Found::Broken(broken) => Found::Broken(broken),
        _ => given_back(group, left, right),
    }
}

/// What is found of `op=`, where nothing is broken at the operator.
fn given_back(group: Group, left: Seen, right: Seen) -> Found
    ensures is { (types : List CType) → found_at types result ≡ judged (update_demands group (seen_at types left) (seen_at types right)) (type_at types left.ctype) }
    ensures below { (count : ℕ) → SeenBelow count left → FoundBelow count result }
{
    if !has_assignment(group) || !goes_back(left.kind, right.kind.decayed()) {
        return Found::Broken(OPERANDS);
    }
    if !left.lvalue {
        return Found::Broken(LVALUE);
    }
    Found::Same(left.ctype)
}

/// Whether an assignment has a form of the operators of that group.
fn has_assignment(group: Group) -> bool
    ensures { result ≡ has_assignment group }
{
    match group {
        Group::Arithmetic | Group::Shift | Group::Sum | Group::Difference => true,
        Group::Order | Group::Equality | Group::Logic | Group::Sequence => false,
    }
}

/// Whether what such an operator gives goes back to its left side.
fn goes_back(left: Kind, right: Kind) -> bool
    ensures { (types : List CType) → result ≡ goes_back (kind_at types left) (kind_at types right) }
{
    match (left, right) {
        (Kind::Integer(_) | Kind::Pointer(_, _), Kind::Integer(_)) => true,
        _ => false,
    }
}
