ghost use Rattle.std.specs.Prelude.{◌<◌, ℕ, length, IfOk};
ghost use Rattle.cbase.specs.declared.place.Place.{Place};
ghost use Rattle.typing.specs.ctypes.Assigning.{assigned, updated};
ghost use Rattle.typing.specs.Known.{plain};
ghost use Rattle.typing.specs.Nodes.{place_of_assignment};
ghost use Rattle.expressions.specs.Numbers.{Numbering, operand_at, operand_in};
ghost use Rattle.expressions.specs.Settled.{Judged};

use crate::context::Context;
use crate::found::Found;
use crate::known::Known;
use crate::nodes::finishing::{Blame, Node, finish, finish_blaming};
use cbase::{BinaryOp, NoMemory, Place};

/// What is found at `=` (C11 6.5.16.1): a value that does not convert is rule 5 at its expression.
pub(crate) fn assignment_node(
    context: &mut Context,
    node: Node,
    left: Known,
    right: Known,
    value_place: Place,
) -> Result<Found<Known>, NoMemory>
    requires left { left.ctype < length context.old.types }
    requires right { right.ctype < length context.old.types }
    ensures { IfOk result (λ found. Judged (λ n. assigned (operand_at n context.old.structs (operand_in left)) (operand_at n context.old.structs (operand_in right))) (place_of_assignment node.place value_place) (λ n t. plain t) node.number context.old context.new found) }
{
    let blame = Blame {
        mark: node.place,
        rule: 5,
        part: value_place,
    };
    finish_blaming(
        context.assignment(left.operand(), right.operand()),
        context,
        node.number,
        blame,
        Known::plain(0),
    )
}

/// What is found at `+=` and its like (C11 6.5.16.2).
pub(crate) fn update_node(
    context: &mut Context,
    node: Node,
    op: BinaryOp,
    left: Known,
    right: Known,
) -> Result<Found<Known>, NoMemory>
    requires left { left.ctype < length context.old.types }
    requires right { right.ctype < length context.old.types }
    ensures { IfOk result (λ found. Judged (λ n. updated op (operand_at n context.old.structs (operand_in left)) (operand_at n context.old.structs (operand_in right))) (λ broken. node.place) (λ n t. plain t) node.number context.old context.new found) }
{
    finish(
        context.update(op, left.operand(), right.operand()),
        context,
        node,
        Known::plain(0),
    )
}
