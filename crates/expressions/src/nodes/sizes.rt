ghost use Rattle.std.specs.Prelude.{◌≡◌, ◌<◌, ◌++◌, ℕ, length, IfOk};
ghost use Rattle.cbase.specs.declared.abi.Abi.{Abi};
ghost use Rattle.typing.specs.Faults.{all_at};
ghost use Rattle.typing.specs.Nodes.{size_in, size_faults, size_told, sized_known};
ghost use Rattle.expressions.specs.Numbers.{Numbering};
ghost use Rattle.expressions.specs.Settled.{Settled, IsFirstOf};

use crate::context::Context;
use crate::found::Found;
use crate::known::Known;
use crate::named_type::NamedType;
use crate::nodes::finishing::{Node, settle};
use crate::nodes::first::{all_at, first_of};
use cbase::{Extent, NoMemory, Place};
use typing::Fault;
use typing::ctypes::Broken;

/// What is found at `sizeof` of a type name, or of an expression of a type of which nothing is found (C11 6.5.3.4).
pub(crate) fn size_node(
    context: &mut Context,
    node: Node,
    named: NamedType,
) -> Result<Found<Known>, NoMemory>
    requires { named.ctype < length context.old.types }
    ensures { (abi : Abi) → IfOk result (λ found. Settled (λ n. all_at node.place named.found ++ size_faults node.place (size_in abi context.old.structs (n.ctype named.ctype))) (λ n. sized_known (size_in abi context.old.structs (n.ctype named.ctype))) node.number context.old context.new found) }
{
    let size = context.size(named.ctype);
    let broken = first_of(
        all_at(node.place, named.found),
        size_fault(node.place, size),
    );
    match context.integer(8, false) {
        Ok(ctype) => {
            let known = Known::valued(size_told(size), ctype);
            settle(context, node.number, broken, known)
        }
        Err(error) => Err(error),
    }
}

/// What is broken at `sizeof`: an incomplete type has no size, and no object has more than 65,536 bytes.
fn size_fault(place: Place, size: Extent) -> Option<Fault>
    ensures { IsFirstOf (size_faults place size) result }
{
    match size {
        Extent::Bytes(_) => None,
        Extent::Incomplete => Some(Fault {
            place,
            broken: Broken::Rule(3),
        }),
        Extent::TooLarge => Some(Fault {
            place,
            broken: Broken::Construct(19),
        }),
    }
}

/// The value of `sizeof`.
fn size_told(size: Extent) -> Option<u64>
    ensures { result ≡ size_told size }
{
    match size {
        Extent::Bytes(count) => Some(u64::from(count)),
        Extent::Incomplete | Extent::TooLarge => None,
    }
}
