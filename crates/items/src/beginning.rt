ghost use Rattle.std.specs.Prelude.{◌≡◌, [], ℕ, IfOk, OnOk};
ghost use Rattle.expressions.specs.Context.{Agrees, declared};
ghost use Rattle.expressions.specs.Numbers.{Numbering};
ghost use Rattle.items.specs.Begun.{all_defined, at_first, begun};
ghost use Rattle.items.specs.languages.Begins.{Begins};

use crate::built_ins::declare_built_ins;
use cbase::{Abi, NoMemory, Text};
use expressions::Context;
use std::alloc::Global;

/// What is known before the first item of a file in a data layout: whether `main` may not be called; the names that the whole text defines; the functions
/// that are built in, but for those to which it gives a body, `bodied`, in the scope of the file (C11 7.1.3). Nothing is handed on.
pub fn begin(
    alloc: Global,
    abi: Abi,
    strict: bool,
    bodied: &[Text],
    defined: &[Text],
) -> Result<Context, NoMemory>
    ensures { IfOk result (Begins abi strict bodied.now defined.now) }
{
    let mut context = Context::new(alloc);
    match set_up(alloc, &mut context, abi, strict, bodied, defined) {
        Ok(()) => Ok(context),
        Err(error) => {
            drop(context);
            Err(error)
        }
    }
}

/// Declares that in a context in which nothing is known.
fn set_up(
    alloc: Global,
    context: &mut Context,
    abi: Abi,
    strict: bool,
    bodied: &[Text],
    defined: &[Text],
) -> Result<(), NoMemory>
    requires { context.old ≡ at_first }
    ensures declares { (n : Numbering) → OnOk result (Agrees n context.new → declared context.new ≡ begun n abi strict bodied.now defined.now) }
    ensures handed { OnOk result (context.new.handed ≡ []) }
{
    context.set_strict(strict);
    define_all(alloc, context, defined)?;
    context.enter(alloc)?;
    declare_built_ins(alloc, context, abi, bodied)
}

/// Says of each name that the whole text defines it.
fn define_all(alloc: Global, context: &mut Context, names: &[Text]) -> Result<(), NoMemory>
    ensures { OnOk result (context.new ≡ record context.old { environment = all_defined names.now context.old.environment }) }
{
    for name in names {
        context.define(alloc, name.as_slice())?;
    }
    Ok(())
}
