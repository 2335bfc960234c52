ghost use Rattle.std.specs.Prelude.{◌≡◌, ◌<◌, ℕ, length, IfOk};
ghost use Rattle.cbase.specs.declared.abi.Abi.{Abi};
ghost use Rattle.typing.specs.ctypes.Kinds.{kind_of, decayed};
ghost use Rattle.typing.specs.ctypes.Members.{indexed, member_of, member_through};
ghost use Rattle.typing.specs.Idiom.{through, within, at_index, item_bytes, member_offset};
ghost use Rattle.typing.specs.Known.{located};
ghost use Rattle.typing.specs.Nodes.{place_of_member, pointed_offset};
ghost use Rattle.typing.specs.values.Values.{word_of};
ghost use Rattle.expressions.specs.Numbers.{Numbering, operand_at, operand_in};
ghost use Rattle.expressions.specs.Settled.{Judged};

use crate::context::Context;
use crate::found::Found;
use crate::known::Known;
use crate::nodes::finishing::{Blame, Node, finish, finish_blaming};
use cbase::{Identifier, NoMemory};
use typing::Idiom;
use typing::values::word_of;

/// What is found at `base[index]` (C11 6.5.2.1).
pub(crate) fn index_node(
    context: &mut Context,
    node: Node,
    base: Known,
    index: Known,
) -> Result<Found<Known>, NoMemory>
    requires base { base.ctype < length context.old.types }
    requires index { index.ctype < length context.old.types }
    ensures { (abi : Abi) → IfOk result (λ found. Judged (λ n. indexed (decayed (operand_at n context.old.structs (operand_in base)).kind) (decayed (operand_at n context.old.structs (operand_in index)).kind)) (λ broken. node.place) (λ n t. located (at_index base.idiom (word_of (kind_of context.old.structs (n.ctype index.ctype)) index.value) (item_bytes abi context.old.structs (kind_of context.old.structs (n.ctype base.ctype)))) t) node.number context.old context.new found) }
{
    let word = word_of(context.integer_type(index.ctype), index.value);
    let idiom = at_index(base.idiom, word, context.item_bytes(base.ctype));
    finish(
        context.index(base.operand(), index.operand()),
        context,
        node,
        Known::located(idiom, 0),
    )
}

/// What is found at `base.name` (C11 6.5.2.3p1, p3): a name that is no member is rule 6 at it.
pub(crate) fn member_node(
    context: &mut Context,
    node: Node,
    base: Known,
    name: &Identifier,
) -> Result<Found<Known>, NoMemory>
    requires { base.ctype < length context.old.types }
    ensures { (abi : Abi) → IfOk result (λ found. Judged (λ n. member_of context.old.structs (n.ctype base.ctype) name.now.name) (place_of_member node.place name.now.place) (λ n t. record (located (within base.idiom (member_offset abi context.old.structs (n.ctype base.ctype) name.now.name)) t) { lvalue = base.lvalue }) node.number context.old context.new found) }
{
    let offset = context.member_offset(base.ctype, name.name.as_slice());
    let rest = Known {
        lvalue: base.lvalue,
        ..Known::located(within(base.idiom, offset), 0)
    };
    finish_blaming(
        context.member(base.operand(), name.name.as_slice()),
        context,
        node.number,
        Blame {
            mark: node.place,
            rule: 6,
            part: name.place,
        },
        rest,
    )
}

/// What is found at `base->name` (C11 6.5.2.3p2, p4).
pub(crate) fn pointed_member_node(
    context: &mut Context,
    node: Node,
    base: Known,
    name: &Identifier,
) -> Result<Found<Known>, NoMemory>
    requires { base.ctype < length context.old.types }
    ensures { (abi : Abi) → IfOk result (λ found. Judged (λ n. member_through context.old.structs (operand_at n context.old.structs (operand_in base)).kind name.now.name) (place_of_member node.place name.now.place) (λ n t. located (through base.idiom (pointed_offset abi context.old.structs (kind_of context.old.structs (n.ctype base.ctype)) name.now.name)) t) node.number context.old context.new found) }
{
    let offset = context.pointed_offset(base.ctype, name.name.as_slice());
    let rest = Known::located(through(base.idiom, offset), 0);
    let blame = Blame {
        mark: node.place,
        rule: 6,
        part: name.place,
    };
    finish_blaming(
        context.pointed_member(base.operand(), name.name.as_slice()),
        context,
        node.number,
        blame,
        rest,
    )
}

/// How much of the offsetof idiom an item of an array is, of so many bytes.
fn at_index(idiom: Idiom, index: Option<u64>, bytes: Option<u64>) -> Idiom
    ensures { result ≡ at_index idiom index bytes }
{
    match (idiom, index, bytes) {
        (Idiom::MemberAt(before), Some(index), Some(bytes)) => {
            Idiom::MemberAt(before.wrapping_add(index.wrapping_mul(bytes)))
        }
        _ => Idiom::Outside,
    }
}

/// How much of the offsetof idiom a member of a struct is.
fn within(idiom: Idiom, offset: Option<u64>) -> Idiom
    ensures { result ≡ within idiom offset }
{
    match (idiom, offset) {
        (Idiom::MemberAt(before), Some(offset)) => Idiom::MemberAt(before.wrapping_add(offset)),
        _ => Idiom::Outside,
    }
}

/// How much of the offsetof idiom a member behind a pointer is.
fn through(idiom: Idiom, offset: Option<u64>) -> Idiom
    ensures { result ≡ through idiom offset }
{
    match (idiom, offset) {
        (Idiom::NullPointer, Some(offset)) => Idiom::MemberAt(offset),
        _ => Idiom::Outside,
    }
}
