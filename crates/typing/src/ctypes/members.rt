ghost use Rattle.std.specs.Prelude.{◌≡◌, ◌<◌, ℕ, List, length, IfOk, OnErr};
ghost use Rattle.cbase.specs.declared.ctype.CType.{CType};
ghost use Rattle.typing.specs.ctypes.Table.{type_at};
ghost use Rattle.typing.specs.ctypes.Kinds.{decayed};
ghost use Rattle.typing.specs.ctypes.Members.{item_at, indexed, type_of_member, named, member_in, member_of, member_through};
ghost use Rattle.typing.specs.ctypes.Operands.{operand_of, kind_at, found_at, KindBelow, FoundBelow, Answers};

use crate::ctypes::found::{Broken, Found, OPERANDS, Outcome, settle};
use crate::ctypes::kind::{Kind, Target, has_size};
use crate::ctypes::operand::Operand;
use crate::ctypes::types::Types;
use cbase::NoMemory;

/// The type of `base[index]` (C11 6.5.2.1), or what is broken at its `[`.
///
/// One of the two is a pointer and the other an integer, else it is rule 4. Of a pointer to an incomplete struct it is
/// rule 3; of a pointer to `void` it has the type `void`, and counts bytes.
pub fn index_type(types: &mut Types, base: Operand, index: Operand) -> Result<Outcome, NoMemory>
    requires base { base.ctype < length types.old.types }
    requires index { index.ctype < length types.old.types }
    ensures ok { IfOk result (λ outcome. Answers types.old.types (indexed (decayed (operand_of types.old base).kind) (decayed (operand_of types.old index).kind)) types.new.types outcome) }
    ensures structs { types.new.structs ≡ types.old.structs }
    ensures err { OnErr result (types.new ≡ types.old) }
{
    let found = indexed(
        base.seen(types).kind.decayed(),
        index.seen(types).kind.decayed(),
    );
    settle(types, found)
}

/// The type of `operand.name` (C11 6.5.2.3), or what is broken at it.
///
/// Of an incomplete struct it is rule 3, of what is no struct rule 4; where the struct has no such member it is rule 6,
/// at the name.
pub fn member_type(types: &mut Types, operand: Operand, name: &[u8]) -> Result<Outcome, NoMemory>
    requires { operand.ctype < length types.old.types }
    ensures ok { IfOk result (λ outcome. Answers types.old.types (member_of types.old.structs (type_at types.old.types operand.ctype) name.now) types.new.types outcome) }
    ensures structs { types.new.structs ≡ types.old.structs }
    ensures err { OnErr result (types.new ≡ types.old) }
{
    let found = member_of(types, operand.ctype, name);
    settle(types, found)
}

/// The type of `operand->name` (C11 6.5.2.3): that of the member of what the operand points to.
///
/// An operand that is no pointer is rule 4.
pub fn pointed_member_type(
    types: &mut Types,
    operand: Operand,
    name: &[u8],
) -> Result<Outcome, NoMemory>
    requires { operand.ctype < length types.old.types }
    ensures ok { IfOk result (λ outcome. Answers types.old.types (member_through types.old.structs (operand_of types.old operand).kind name.now) types.new.types outcome) }
    ensures structs { types.new.structs ≡ types.old.structs }
    ensures err { OnErr result (types.new ≡ types.old) }
{
    let found = member_through(types, Kind::of(types, operand.ctype), name);
    settle(types, found)
}

/// What is found of an item behind a pointer.
fn item_at(item: u32, target: Target) -> Found
    ensures is { (types : List CType) → found_at types result ≡ item_at (type_at types item) target }
    ensures below { (count : ℕ) → item < count → FoundBelow count result }
{
    match target {
        Target::Void | Target::Sized => Found::Same(item),
        Target::Unsized => Found::Broken(Broken::Rule(3)),
    }
}

/// What is found of `base[index]`.
fn indexed(base: Kind, index: Kind) -> Found
    ensures is { (types : List CType) → found_at types result ≡ indexed (kind_at types base) (kind_at types index) }
    ensures below { (count : ℕ) → KindBelow count base → KindBelow count index → FoundBelow count result }
{
    match (base, index) {
        (Kind::Pointer(item, target), Kind::Integer(_))
        | (Kind::Integer(_), Kind::Pointer(item, target)) => item_at(item, target),
        _ => Found::Broken(OPERANDS),
    }
}

/// What is found of a member of the type of that number.
fn member_of(types: &Types, number: u32, name: &[u8]) -> Found
    requires { number < length types.now.types }
    ensures is { found_at types.now.types result ≡ member_of types.now.structs (type_at types.now.types number) name.now }
    ensures below { FoundBelow (length types.now.types) result }
{
    match Kind::of(types, number) {
        Kind::Struct(of) => {
            if has_size(types, number) {
                named(types, of, name)
            } else {
                Found::Broken(Broken::Rule(3))
            }
        }
        _ => Found::Broken(OPERANDS),
    }
}

/// What is found of a member of the struct of that number.
fn named(types: &Types, of: u32, name: &[u8]) -> Found
    ensures is { found_at types.now.types result ≡ named (type_of_member types.now.structs of name.now) }
    ensures below { FoundBelow (length types.now.types) result }
{
    match types.field(of, name) {
        Some(at) => Found::Same(at.ctype),
        None => Found::Broken(Broken::Rule(6)),
    }
}

/// What is found of a member of what a value of that kind points to.
fn member_through(types: &Types, kind: Kind, name: &[u8]) -> Found
    requires { KindBelow (length types.now.types) kind }
    ensures is { found_at types.now.types result ≡ member_through types.now.structs (kind_at types.now.types kind) name.now }
    ensures below { FoundBelow (length types.now.types) result }
{
    match kind {
        Kind::Pointer(item, _) | Kind::Array(item, _) => member_of(types, item, name),
        Kind::Integer(_) | Kind::Struct(_) | Kind::Void => Found::Broken(OPERANDS),
    }
}
