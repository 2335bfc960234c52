ghost use Rattle.std.specs.Prelude.{◌≡◌, ◌<◌, length, All, OnOk};
ghost use Rattle.items.specs.Heads.{function_around, head_declared_in};

use crate::declarations::definition_by_now;
use crate::definitions::with_definition;
use crate::heads::broken::definition_of_head;
use crate::heads::marking::mark_parameters;
use crate::heads::parts::Head;
use crate::parameters::{Parameter, function_linked};
use cbase::{Declared, List, NoMemory};
use expressions::Context;
use std::alloc::Global;
use typing::environment::Signature;

/// Declares a function by its head (C11 6.9.1) around the scope of its parameters, which are marked where it is `main`; the text has from here on what it
/// had for it before and what the head adds. `types` are the numbers of the types of its parameters.
///
/// Want of memory is the only error, and nothing is said of the context then.
pub(crate) fn declare_head(
    alloc: Global,
    context: &mut Context,
    head: Head,
    name: &Declared,
    params: &[Parameter],
    types: List<u32>,
) -> Result<(), NoMemory>
    requires of { head.result < length context.old.types }
    requires params { All (λ param. param.ctype < length context.old.types) params.now }
    requires types { All (λ number. number < length context.old.types) types }
    ensures { OnOk result (context.new ≡ head_declared_in head name.now params.now types context.old) }
{
    let text = name.name.as_slice();
    let before = definition_by_now(context.linked(text));
    mark_parameters(alloc, context, name, params)?;
    declare_around(alloc, context, text, head.result, types)?;
    let now = with_definition(before, definition_of_head(head.bodied));
    context.set_definition(text, now);
    Ok(())
}

/// Declares a function of those types by the name in the scope around the innermost one (C11 6.2.2p5): its signature stands behind the others.
///
/// Want of memory is the only error, and nothing is said of the context then.
fn declare_around(
    alloc: Global,
    context: &mut Context,
    name: &[u8],
    result_type: u32,
    params: List<u32>,
) -> Result<(), NoMemory>
    requires of { result_type < length context.old.types }
    requires params { All (λ number. number < length context.old.types) params }
    ensures { OnOk result (context.new ≡ function_around name.now result_type params context.old) }
{
    let signature = context.add_signature(Signature {
        result: result_type,
        parameters: params,
    })?;
    let meaning = function_linked(context, name, signature);
    context.declare_linked_around(alloc, name, meaning)
}
