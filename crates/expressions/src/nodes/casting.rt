ghost use Rattle.std.specs.Prelude.{◌≡◌, ◌<◌, ◌++◌, ℕ, length, IfOk};
ghost use Rattle.typing.specs.ctypes.Converting.{cast};
ghost use Rattle.typing.specs.ctypes.Kinds.{kind_of, decayed};
ghost use Rattle.typing.specs.Faults.{all_at, faults_of};
ghost use Rattle.typing.specs.Idiom.{is_idiom};
ghost use Rattle.typing.specs.Nodes.{cast_known};
ghost use Rattle.expressions.specs.Numbers.{Numbering, known_at, judgement_at};
ghost use Rattle.expressions.specs.Settled.{Settled, IsFirstOf};

use crate::context::Context;
use crate::found::Found;
use crate::known::Known;
use crate::named_type::NamedType;
use crate::nodes::finishing::{Node, settle};
use crate::nodes::first::{all_at, first_of};
use cbase::{NoMemory, Place};
use typing::ctypes::Outcome;
use typing::{Fault, Idiom};

/// What is found at a cast (C11 6.5.4).
pub(crate) fn cast_node(
    context: &mut Context,
    node: Node,
    to: NamedType,
    arg: Known,
) -> Result<Found<Known>, NoMemory>
    requires to { to.ctype < length context.old.types }
    requires arg { arg.ctype < length context.old.types }
    ensures { IfOk result (λ found. Settled (λ n. all_at node.place to.found ++ faults_of node.place (cast (kind_of context.old.structs (n.ctype to.ctype)) (n.ctype to.ctype) (decayed (kind_of context.old.structs (n.ctype arg.ctype))) arg.null (is_idiom arg.idiom))) (λ n. cast_known (n.ctype to.ctype) (kind_of context.old.structs (n.ctype to.ctype)) (kind_of context.old.structs (n.ctype arg.ctype)) (known_at n arg)) node.number context.old context.new found) }
{
    let known = context.cast_known(to.ctype, arg);
    match context.cast(to.ctype, arg.operand(), is_idiom(arg.idiom)) {
        Ok(outcome) => {
            let broken = first_of(all_at(node.place, to.found), fault_of(node.place, outcome));
            settle(context, node.number, broken, known)
        }
        Err(error) => Err(error),
    }
}

/// What is broken at an operator, if anything is.
fn fault_of(place: Place, outcome: Outcome) -> Option<Fault>
    ensures { (n : Numbering) → IsFirstOf (faults_of place (judgement_at n outcome)) result }
{
    match outcome {
        Outcome::Typed(_) => None,
        Outcome::Broken(broken) => Some(Fault { place, broken }),
    }
}

/// Whether it is the address of the offsetof idiom.
fn is_idiom(idiom: Idiom) -> bool
    ensures { result ≡ is_idiom idiom }
{
    match idiom {
        Idiom::AddressAt(_) => true,
        _ => false,
    }
}
