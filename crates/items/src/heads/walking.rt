ghost use Rattle.std.specs.Prelude.{◌≡◌, ◌≤◌, ◌<◌, length, All, IfOk};
ghost use Rattle.cbase.specs.declared.tree.expr.ExprForm.TheViews.{out-Declared};
ghost use Rattle.ctrees.specs.Levels.{declared_levels, stmt_levels};
ghost use Rattle.typing.specs.Heads.{params_of};
ghost use Rattle.typing.specs.Items.{DefinitionIs, HeadIs};
ghost use Rattle.expressions.specs.Found.{a_value_type, nothing};
ghost use Rattle.expressions.specs.Nests.{Nests};
ghost use Rattle.expressions.specs.Numbers.{named_at};
ghost use Rattle.expressions.specs.Walked.{Walked};
ghost use Rattle.items.specs.InFile.{SaysInFileBy};

use crate::heads::taking::take_head;
use crate::parameters::parameters;
use cbase::{Declared, List, NoMemory, Param, Stmt, Storage};
use expressions::{Checker, Context, Found, NamedType, Part, Told, Within};
use std::alloc::Global;

/// A head with its body (C11 6.9.1), which stands in the scope of the parameters (6.2.1p4) and in no loop. That scope is not left behind it.
///
/// Want of memory is the only error, and nothing is said of the context then.
pub(crate) fn definition<F: Fn(&mut Context, Within, Part<'_>) -> Result<Found<Told>, NoMemory>>(
    checker: &Checker<F>,
    alloc: Global,
    context: &mut Context,
    storage: Storage,
    base: NamedType,
    name: &Declared,
    body: &List<Stmt>,
) -> Result<Found<()>, NoMemory>
    requires nests { Nests checker.now.abi checker.now.depth (F.pre checker.now.inner) (F.post checker.now.inner) }
    requires base { base.ctype < length context.old.types }
    requires deep { declared_levels name.now ≤ checker.now.depth }
    requires body { All (λ stmt. stmt_levels stmt ≤ checker.now.depth) body.now }
    ensures { IfOk result (λ found. Walked (SaysInFileBy checker.now.abi (λ n o. DefinitionIs storage (named_at n base) name.now body.now o)) nothing context.old context.new found) }
{
    let told = head(checker, alloc, context, true, storage, base, name)?;
    let result_type = match told {
        Found::Passes(result_type) => result_type,
        Found::Refused(fault) => return Ok(Found::Refused(fault)),
    };
    context.set_function(Some(result_type));
    context.set_loop(false);
    let found = checker.statements(context, body.as_slice())?;
    match found {
        Found::Passes(_) => Ok(Found::Passes(())),
        Found::Refused(fault) => Ok(Found::Refused(fault)),
    }
}

/// The head of a function (C11 6.7.6.3): its parameters, in a scope of their own, which is not left behind it, then what is found at its name, which is
/// declared around that scope. What is told is the number of its result's type.
///
/// Want of memory is the only error, and nothing is said of the context then.
pub(crate) fn head<F: Fn(&mut Context, Within, Part<'_>) -> Result<Found<Told>, NoMemory>>(
    checker: &Checker<F>,
    alloc: Global,
    context: &mut Context,
    bodied: bool,
    storage: Storage,
    base: NamedType,
    name: &Declared,
) -> Result<Found<u32>, NoMemory>
    requires nests { Nests checker.now.abi checker.now.depth (F.pre checker.now.inner) (F.post checker.now.inner) }
    requires base { base.ctype < length context.old.types }
    requires deep { declared_levels name.now ≤ checker.now.depth }
    ensures { IfOk result (λ found. Walked (SaysInFileBy checker.now.abi (λ n o. HeadIs bodied storage (named_at n base) name.now o)) a_value_type context.old context.new found) }
{
    let mut kept = Vec::new(alloc);
    context.enter(alloc)?;
    let walked = parameters(checker, alloc, context, params_of(name), &mut kept)?;
    match walked {
        Found::Passes(()) => take_head(alloc, context, bodied, storage, base, name, &kept),
        Found::Refused(fault) => Ok(Found::Refused(fault)),
    }
}

/// The parameters of a function: none where it has no list of them.
pub(crate) fn params_of(name: &Declared) -> &[Param]
    ensures { result.now ≡ params_of (out-Declared name.now).params }
{
    match &name.params {
        None => &[],
        Some(params) => params.as_slice(),
    }
}
