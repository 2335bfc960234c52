ghost use Rattle.std.specs.Prelude.{◌≡◌, ◌<◌, ℕ, length, IfOk};
ghost use Rattle.typing.specs.ctypes.Binary.{binary};
ghost use Rattle.typing.specs.ctypes.Kinds.{kind_of};
ghost use Rattle.typing.specs.ctypes.Unary.{unary, counted};
ghost use Rattle.cbase.specs.declared.tree.operators.UnaryOp.TheVariants.{Address, Follow};
ghost use Rattle.typing.specs.Idiom.{address};
ghost use Rattle.typing.specs.Known.{plain, located, valued};
ghost use Rattle.typing.specs.declared.idiom.Idiom.TheVariants.{Outside};
ghost use Rattle.typing.specs.values.Values.{unary_value, binary_value};
ghost use Rattle.expressions.specs.Numbers.{Numbering, operand_at, operand_in};
ghost use Rattle.expressions.specs.Settled.{Judged};

use crate::context::Context;
use crate::found::Found;
use crate::known::Known;
use crate::nodes::finishing::{Node, finish};
use cbase::{BinaryOp, NoMemory, UnaryOp};
use typing::Idiom;
use typing::values::{binary_value, unary_value};

/// What is found at a unary operator on a value: `+`, `-`, `~` and `!` (C11 6.5.3.3).
pub(crate) fn unary_node(
    context: &mut Context,
    node: Node,
    op: UnaryOp,
    arg: Known,
) -> Result<Found<Known>, NoMemory>
    requires { arg.ctype < length context.old.types }
    ensures { IfOk result (λ found. Judged (λ n. unary op (operand_at n context.old.structs (operand_in arg))) (λ broken. node.place) (λ n t. valued (unary_value op (kind_of context.old.structs (n.ctype arg.ctype)) arg.value) t) node.number context.old context.new found) }
{
    let value = unary_value(op, context.integer_type(arg.ctype), arg.value);
    finish(
        context.unary(op, arg.operand()),
        context,
        node,
        Known::valued(value, 0),
    )
}

/// What is found at `&` (C11 6.5.3.2p1, p3).
pub(crate) fn address_node(
    context: &mut Context,
    node: Node,
    arg: Known,
) -> Result<Found<Known>, NoMemory>
    requires { arg.ctype < length context.old.types }
    ensures { IfOk result (λ found. Judged (λ n. unary Address (operand_at n context.old.structs (operand_in arg))) (λ broken. node.place) (λ n t. record (plain t) { idiom = address arg.idiom }) node.number context.old context.new found) }
{
    let idiom = address(arg.idiom);
    finish(
        context.unary(UnaryOp::Address, arg.operand()),
        context,
        node,
        Known {
            idiom,
            ..Known::plain(0)
        },
    )
}

/// How much of the offsetof idiom the address of an lvalue is.
fn address(idiom: Idiom) -> Idiom
    ensures { result ≡ address idiom }
{
    match idiom {
        Idiom::MemberAt(offset) => Idiom::AddressAt(offset),
        _ => Idiom::Outside,
    }
}

/// What is found at `*` (C11 6.5.3.2p2, p4).
pub(crate) fn indirection_node(
    context: &mut Context,
    node: Node,
    arg: Known,
) -> Result<Found<Known>, NoMemory>
    requires { arg.ctype < length context.old.types }
    ensures { IfOk result (λ found. Judged (λ n. unary Follow (operand_at n context.old.structs (operand_in arg))) (λ broken. node.place) (λ n t. located Outside t) node.number context.old context.new found) }
{
    finish(
        context.unary(UnaryOp::Follow, arg.operand()),
        context,
        node,
        Known::located(Idiom::Outside, 0),
    )
}

/// What is found at `++` and `--` (C11 6.5.2.4, 6.5.3.1).
pub(crate) fn counting_node(
    context: &mut Context,
    node: Node,
    arg: Known,
) -> Result<Found<Known>, NoMemory>
    requires { arg.ctype < length context.old.types }
    ensures { IfOk result (λ found. Judged (λ n. counted (operand_at n context.old.structs (operand_in arg))) (λ broken. node.place) (λ n t. plain t) node.number context.old context.new found) }
{
    finish(context.count(arg.operand()), context, node, Known::plain(0))
}

/// What is found at a binary operator or a comma (C11 6.5.5 to 6.5.14, 6.5.17).
pub(crate) fn binary_node(
    context: &mut Context,
    node: Node,
    op: BinaryOp,
    left: Known,
    right: Known,
) -> Result<Found<Known>, NoMemory>
    requires left { left.ctype < length context.old.types }
    requires right { right.ctype < length context.old.types }
    ensures { IfOk result (λ found. Judged (λ n. binary op (operand_at n context.old.structs (operand_in left)) (operand_at n context.old.structs (operand_in right))) (λ broken. node.place) (λ n t. valued (binary_value op (kind_of context.old.structs (n.ctype left.ctype)) left.value (kind_of context.old.structs (n.ctype right.ctype)) right.value) t) node.number context.old context.new found) }
{
    let value = binary_value(
        op,
        context.integer_type(left.ctype),
        left.value,
        context.integer_type(right.ctype),
        right.value,
    );
    finish(
        context.binary(op, left.operand(), right.operand()),
        context,
        node,
        Known::valued(value, 0),
    )
}
