ghost use Rattle.std.specs.Prelude.{◌≡◌, ◌<◌, ℕ, length, map, All, IfOk, IfSome, IfNone};
ghost use Rattle.typing.specs.ctypes.Kinds.{kind_of};
ghost use Rattle.typing.specs.declared.ctypes.found.Broken.TheVariants.{Construct};
ghost use Rattle.typing.specs.Calls.{call_faults};
ghost use Rattle.typing.specs.Faults.{fault};
ghost use Rattle.typing.specs.Known.{plain};
ghost use Rattle.expressions.specs.declared.found.Found.TheVariants.{Refused};
ghost use Rattle.expressions.specs.Arguments.{arguments_at};
ghost use Rattle.expressions.specs.Numbers.{Numbering};
ghost use Rattle.expressions.specs.Settled.{Settled};

use crate::context::Context;
use crate::found::Found;
use crate::known::Known;
use crate::nodes::arguments::call_fault;
use crate::nodes::finishing::{Node, settle};
use cbase::{Expr, NoMemory, Place};
use typing::Fault;
use typing::ctypes::Broken;

/// A function that a callee names.
#[derive(Clone, Copy)]
pub(crate) struct Callee<'a> {
    /// Its name.
    pub(crate) name: &'a [u8],
    /// The place of the name.
    pub(crate) place: Place,
    /// The number of its signature.
    pub(crate) signature: u32,
    /// Whether the text has a body for it.
    pub(crate) defined: bool,
    /// Whether it is one of the functions that are built in.
    pub(crate) built_in: bool,
}

/// What is found at a call of a function (C11 6.5.2.2), or of what names none, which is construct 11, behind its arguments.
pub(crate) fn call_node(
    context: &mut Context,
    node: Node,
    function: Option<Callee<'_>>,
    args: &[Expr],
    known: &[Known],
) -> Result<Found<Known>, NoMemory>
    requires signature { IfSome function (λ callee. callee.signature < length context.old.environment.signatures) }
    requires known { All (λ one. one.ctype < length context.old.types) known.now }
    requires count { length known.now ≡ length args.now }
    ensures some { IfSome function.entry (λ callee. IfOk result (λ found. Settled (λ n. call_faults context.old.environment.strict node.place callee.place callee.name.now callee.built_in (kind_of context.old.structs (n.ctype (n.signature callee.signature).result)) (map (kind_of context.old.structs) (map n.ctype (n.signature callee.signature).parameters)) (arguments_at n context.old.structs args.now known.now)) (λ n. plain (n.ctype (n.signature callee.signature).result)) node.number context.old context.new found)) }
    ensures none { IfNone function.entry (IfOk result (λ found. (found ≡ Refused (fault node.place (Construct 11))) × (context.new ≡ context.old))) }
{
    let Some(callee) = function else {
        return Ok(Found::Refused(Fault {
            place: node.place,
            broken: Broken::Construct(11),
        }));
    };
    let broken = call_fault(context, node, callee, args, known);
    let result = context.result_of(callee.signature);
    settle(context, node.number, broken, Known::plain(result))
}
