ghost use Rattle.std.specs.Prelude.{◌<◌, length, All, IfOk};
ghost use Rattle.cbase.specs.declared.abi.Abi.{Abi};
ghost use Rattle.items.specs.Heads.{IsHead};

use crate::heads::broken::head_fault;
use crate::heads::declaring::declare_head;
use crate::heads::handing::hand_on_head;
use crate::heads::parts::Head;
use crate::parameters::{Parameter, types_of};
use cbase::{Declared, NoMemory, Storage};
use expressions::{Context, Found, NamedType, pointers_to};
use std::alloc::Global;

/// The name of a function behind its parameters (C11 6.9.1): what is broken at it and at theirs, or it is declared around their scope, and handed on with
/// them where a body stands behind it.
///
/// Want of memory is the only error, and nothing is said of the context then.
pub(crate) fn take_head(
    alloc: Global,
    context: &mut Context,
    bodied: bool,
    storage: Storage,
    base: NamedType,
    name: &Declared,
    params: &[Parameter],
) -> Result<Found<u32>, NoMemory>
    requires base { base.ctype < length context.old.types }
    requires params { All (λ param. param.ctype < length context.old.types) params.now }
    ensures { (abi : Abi) → IfOk result (λ found. IsHead abi bodied storage base name.now params.now context.old context.new found) }
{
    let result_type = pointers_to(context, base.ctype, name.stars)?;
    let types = types_of(alloc, params)?;
    let head = Head {
        bodied,
        storage,
        found: base.found,
        result: result_type,
    };
    match head_fault(context, head, name, params, types.as_slice()) {
        Some(fault) => Ok(Found::Refused(fault)),
        None => {
            declare_head(alloc, context, head, name, params, types)?;
            hand_on_head(context, head, name, params)?;
            Ok(Found::Passes(result_type))
        }
    }
}
