ghost use Rattle.std.specs.Prelude.{ℕ, IfOk};
ghost use Rattle.typing.specs.declared.constants.meaning.Meaning.{Meaning};
ghost use Rattle.typing.specs.constants.Meanings.{Means};
ghost use Rattle.expressions.specs.Constants.{constant_faults, constant_told};
ghost use Rattle.expressions.specs.Settled.{Settled};

use crate::context::Context;
use crate::found::Found;
use crate::known::Known;
use crate::nodes::finishing::{Node, pass};
use cbase::{Abi, NoMemory};
use typing::Fault;
use typing::constants::{Meaning, read_constant};
use typing::ctypes::Broken;

/// What is found at a constant (C11 6.4.4): one that fits no type is rule 9 (6.4.4p2).
pub(crate) fn constant_node(
    context: &mut Context,
    node: Node,
    abi: Abi,
    spelling: &[u8],
) -> Result<Found<Known>, NoMemory>
    ensures { IfOk result (λ found. (meaning : Meaning) × Means abi spelling.now meaning × Settled (λ n. constant_faults node.place meaning) (λ n. constant_told meaning) node.number context.old context.new found) }
{
    match read_constant(spelling, abi) {
        Meaning::Known(constant) => match context.integer(constant.bytes, constant.signed) {
            Ok(ctype) => {
                let known = Known::valued(Some(constant.bits), ctype);
                pass(context, node.number, known)
            }
            Err(error) => Err(error),
        },
        Meaning::NoConstant | Meaning::FitsNoType => Ok(Found::Refused(Fault {
            place: node.place,
            broken: Broken::Rule(9),
        })),
    }
}
