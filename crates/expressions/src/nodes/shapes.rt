ghost use Rattle.std.specs.Prelude.{◌≡◌, ◌<◌, ℕ, length, IfOk};
ghost use Rattle.cbase.specs.declared.abi.Abi.{Abi};
ghost use Rattle.cbase.specs.declared.tree.expr.Expr.{Expr};
ghost use Rattle.expressions.specs.Found.{one_operand, two_operands};
ghost use Rattle.expressions.specs.Shapes.{FoundBehind, single_form, pair_form, is_loaded, takes_value};

use crate::context::Context;
use crate::found::Found;
use crate::known::Known;
use crate::named_type::NamedType;
use crate::nodes::assigning::{assignment_node, update_node};
use crate::nodes::finishing::Node;
use crate::nodes::members::{index_node, member_node, pointed_member_node};
use crate::nodes::operations::{
    address_node, binary_node, counting_node, indirection_node, unary_node,
};
use crate::nodes::sizes::size_node;
use cbase::{BinaryOp, Identifier, NoMemory, Place, UnaryOp};

/// A form of one operand, less the operand.
#[derive(Clone, Copy)]
pub(crate) enum Single<'a> {
    /// A unary operator (C11 6.5.3.2, 6.5.3.3).
    Unary(UnaryOp),
    /// `++` and `--` (C11 6.5.2.4, 6.5.3.1).
    Count {
        /// Whether it is `++`.
        up: bool,
        /// Whether it stands behind its operand.
        after: bool,
    },
    /// `sizeof` of an expression (C11 6.5.3.4).
    Size,
    /// `base.name`, or `base->name` (C11 6.5.2.3).
    Member(&'a Identifier, bool),
}

/// A form of two operands, less these.
#[derive(Clone, Copy)]
pub(crate) enum Pair {
    /// A binary operator or the comma (C11 6.5.5 to 6.5.14, 6.5.17).
    Binary(BinaryOp),
    /// `=`, or `+=` and its like (C11 6.5.16).
    Assign(Option<BinaryOp>),
    /// `base[index]` (C11 6.5.2.1).
    Index,
}

/// Whether the value of its operand is taken (C11 6.3.2.1p2).
pub(crate) fn is_loaded(single: Single<'_>) -> bool
    ensures { result ≡ is_loaded single.entry }
{
    match single {
        Single::Unary(op) => takes_value(op),
        Single::Count { .. } => true,
        Single::Size => false,
        Single::Member(_, through) => through,
    }
}

/// Whether a unary operator takes the value of its operand.
fn takes_value(op: UnaryOp) -> bool
    ensures { result ≡ takes_value op }
{
    match op {
        UnaryOp::Address => false,
        UnaryOp::Follow | UnaryOp::Plus | UnaryOp::Minus | UnaryOp::Flip | UnaryOp::Not => true,
    }
}

/// What is found at a form of one operand.
pub(crate) fn single_node(
    context: &mut Context,
    node: Node,
    single: Single<'_>,
    arg: Known,
) -> Result<Found<Known>, NoMemory>
    requires { arg.ctype < length context.old.types }
    ensures { (abi : Abi) (tree : Expr) → IfOk result (λ found. FoundBehind abi node.number node.place (single_form single.entry tree) one_operand arg context.old context.new found) }
{
    match single {
        Single::Unary(op) => match op {
            UnaryOp::Address => address_node(context, node, arg),
            UnaryOp::Follow => indirection_node(context, node, arg),
            _ => unary_node(context, node, op, arg),
        },
        Single::Count { .. } => counting_node(context, node, arg),
        Single::Size => {
            let named = NamedType {
                ctype: arg.ctype,
                found: None,
            };
            size_node(context, node, named)
        }
        Single::Member(name, through) => {
            if through {
                pointed_member_node(context, node, arg, name)
            } else {
                member_node(context, node, arg, name)
            }
        }
    }
}

/// What is found at a form of two operands, of which the second stands at a place.
pub(crate) fn pair_node(
    context: &mut Context,
    node: Node,
    pair: Pair,
    left: Known,
    right: Known,
    place: Place,
) -> Result<Found<Known>, NoMemory>
    requires left { left.ctype < length context.old.types }
    requires right { right.ctype < length context.old.types }
    ensures { (abi : Abi) (one other : Expr) → other.place ≡ place → IfOk result (λ found. FoundBehind abi node.number node.place (pair_form pair one other) two_operands (left, right) context.old context.new found) }
{
    match pair {
        Pair::Binary(op) => binary_node(context, node, op, left, right),
        Pair::Assign(op) => match op {
            None => assignment_node(context, node, left, right, place),
            Some(op) => update_node(context, node, op, left, right),
        },
        Pair::Index => index_node(context, node, left, right),
    }
}
