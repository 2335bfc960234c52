ghost use Rattle.std.specs.Prelude.{◌≡◌, ◌<◌, ℕ, List, length, IfOk, OnErr, if◌then◌else◌};
ghost use Rattle.cbase.specs.declared.ctype.CType.{CType};
ghost use Rattle.typing.specs.ctypes.Table.{type_at};
ghost use Rattle.typing.specs.ctypes.Choosing.{chosen, joined, beside, is_void, led_to};
ghost use Rattle.typing.specs.ctypes.Operands.{operand_of, kind_at, seen_at, found_at, KindBelow, SeenBelow, FoundBelow, Answers};

use crate::ctypes::binary::is_scalar;
use crate::ctypes::found::{Found, OPERANDS, Outcome, settle};
use crate::ctypes::kind::{Kind, Target};
use crate::ctypes::operand::{Operand, Seen};
use crate::ctypes::types::Types;
use cbase::NoMemory;

/// The type of `?:` (C11 6.5.15), or what is broken at its `?`.
///
/// A test that is no condition, and arms that do not stand together, are rule 4. Of two pointers that lead to
/// different types, neither of them `void`, the first one's type is taken, a choice of this project.
pub fn choice_type(
    types: &mut Types,
    test: Operand,
    first: Operand,
    second: Operand,
) -> Result<Outcome, NoMemory>
    requires test { test.ctype < length types.old.types }
    requires first { first.ctype < length types.old.types }
    requires second { second.ctype < length types.old.types }
    ensures ok { IfOk result (λ outcome. Answers types.old.types (chosen (operand_of types.old test) (operand_of types.old first) (operand_of types.old second)) types.new.types outcome) }
    ensures structs { types.new.structs ≡ types.old.structs }
    ensures err { OnErr result (types.new ≡ types.old) }
{
    let found = chosen(test.seen(types), first.seen(types), second.seen(types));
    settle(types, found)
}

/// What is found of `?:`.
fn chosen(test: Seen, first: Seen, second: Seen) -> Found
    ensures is { (types : List CType) → found_at types result ≡ chosen (seen_at types test) (seen_at types first) (seen_at types second) }
    ensures below { (count : ℕ) → SeenBelow count first → SeenBelow count second → FoundBelow count result }
{
    if !is_scalar(test.kind) {
        return Found::Broken(OPERANDS);
    }
    joined(
        first.kind.decayed(),
        first.null,
        second.kind.decayed(),
        second.null,
    )
}

/// What is found of two arms.
fn joined(first: Kind, first_null: bool, second: Kind, second_null: bool) -> Found
    ensures is { (types : List CType) → found_at types result ≡ joined (kind_at types first) first_null (kind_at types second) second_null }
    ensures below { (count : ℕ) → KindBelow count first → KindBelow count second → FoundBelow count result }
{
    match (first, second) {
        (Kind::Integer(first), Kind::Integer(second)) => Found::integer(first.common(second)),
        (Kind::Pointer(first, first_target), Kind::Pointer(second, second_target)) => {
            if takes_other(first_target, first_null, second_target, second_null) {
                Found::Pointer(second)
            } else {
                Found::Pointer(first)
            }
        }
        (Kind::Pointer(item, _), Kind::Integer(_)) => pointer_if(second_null, item),
        (Kind::Integer(_), Kind::Pointer(item, _)) => pointer_if(first_null, item),
        (Kind::Void, Kind::Void) => Found::Void,
        _ => Found::Broken(OPERANDS),
    }
}

/// A pointer to the type of that number, where the other arm is constant 0.
fn pointer_if(null: bool, item: u32) -> Found
    ensures is { (types : List CType) → found_at types result ≡ beside (type_at types item) null }
    ensures below { (count : ℕ) → item < count → FoundBelow count result }
{
    if null {
        Found::Pointer(item)
    } else {
        Found::Broken(OPERANDS)
    }
}

/// Whether of two pointers as arms the second one says what both lead to.
fn takes_other(first: Target, first_null: bool, second: Target, second_null: bool) -> bool
    ensures { (one other : CType) → led_to one first first_null other second second_null ≡ (if result then other else one) }
{
    if first_null && is_void(first) {
        return true;
    }
    if second_null && is_void(second) {
        return false;
    }
    !is_void(first) && is_void(second)
}

/// Whether a pointer leads to `void`.
fn is_void(target: Target) -> bool
    ensures { result ≡ is_void target }
{
    match target {
        Target::Void => true,
        Target::Sized | Target::Unsized => false,
    }
}
