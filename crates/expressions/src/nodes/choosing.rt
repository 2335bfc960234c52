ghost use Rattle.std.specs.Prelude.{◌<◌, ℕ, length, IfOk};
ghost use Rattle.typing.specs.ctypes.Choosing.{chosen};
ghost use Rattle.typing.specs.ctypes.Kinds.{kind_of};
ghost use Rattle.typing.specs.Known.{valued};
ghost use Rattle.typing.specs.values.Values.{choice_value};
ghost use Rattle.expressions.specs.Numbers.{Numbering, operand_at, operand_in};
ghost use Rattle.expressions.specs.Settled.{Judged};

use crate::context::Context;
use crate::found::Found;
use crate::known::Known;
use crate::nodes::finishing::{Node, finish};
use cbase::NoMemory;
use typing::values::choice_value;

/// What is found at `?:` (C11 6.5.15).
pub(crate) fn choice_node(
    context: &mut Context,
    node: Node,
    test: Known,
    one: Known,
    other: Known,
) -> Result<Found<Known>, NoMemory>
    requires test { test.ctype < length context.old.types }
    requires one { one.ctype < length context.old.types }
    requires other { other.ctype < length context.old.types }
    ensures { IfOk result (λ found. Judged (λ n. chosen (operand_at n context.old.structs (operand_in test)) (operand_at n context.old.structs (operand_in one)) (operand_at n context.old.structs (operand_in other))) (λ broken. node.place) (λ n t. valued (choice_value (kind_of context.old.structs (n.ctype test.ctype)) test.value (kind_of context.old.structs (n.ctype one.ctype)) one.value (kind_of context.old.structs (n.ctype other.ctype)) other.value) t) node.number context.old context.new found) }
{
    let value = choice_value(
        context.integer_type(test.ctype),
        test.value,
        context.integer_type(one.ctype),
        one.value,
        context.integer_type(other.ctype),
        other.value,
    );
    finish(
        context.choice(test.operand(), one.operand(), other.operand()),
        context,
        node,
        Known::valued(value, 0),
    )
}
