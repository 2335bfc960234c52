ghost use Rattle.std.specs.Prelude.{◌≡◌, ◌≤◌, ◌<◌, Some, IfOk, length};
ghost use Rattle.cbase.specs.declared.tree.expr.ExprForm.TheViews.{out-Declared, out-Init};
ghost use Rattle.ctrees.specs.Levels.{init_levels};
ghost use Rattle.expressions.specs.Found.{nothing};
ghost use Rattle.expressions.specs.Nests.{Nests};
ghost use Rattle.expressions.specs.Walked.{Walked, SaysBy};
ghost use Rattle.typing.specs.Declarations.{ObjectGiven, in_braces, name_of};
ghost use Rattle.typing.specs.Entities.{ItemsOf, WholeType};
ghost use Rattle.typing.specs.Typing.{InitialisedIs};

use crate::declarations::handing::hand_object;
use crate::declarations::telling::tell_size;
use cbase::{Declared, Init, NoMemory};
use expressions::{Checker, Context, Found, Part, Slot, Subject, Told, Within};
use std::alloc::Global;

/// The initialiser of an object of the type of a number (C11 6.7.9), behind which the object is handed on.
///
/// Want of memory is the only error, and nothing is said of the context then.
pub(crate) fn object_initialised<
    F: Fn(&mut Context, Within, Part<'_>) -> Result<Found<Told>, NoMemory>,
>(
    checker: &Checker<F>,
    context: &mut Context,
    name: &Declared,
    fixed: bool,
    ctype: u32,
    init: &Init,
) -> Result<Found<()>, NoMemory>
    requires nests { Nests checker.now.abi checker.now.depth (F.pre checker.now.inner) (F.post checker.now.inner) }
    requires deep { init_levels init.now ≤ checker.now.depth }
    requires below { ctype < length context.old.types }
    ensures { IfOk result (λ found. Walked (SaysBy checker.now.abi (λ n o. InitialisedIs (name_of (out-Declared name.now)) (ObjectGiven fixed (WholeType (n.ctype ctype))) (Some init.now) o)) nothing context.old context.new found) }
{
    let place = name.place;
    let subject = Subject { place, fixed };
    let slot = Slot {
        ctype,
        offset: 0,
        braces: true,
    };
    match checker.ask_initialiser(context, subject, slot, init)? {
        Found::Passes(()) => {
            hand_object(context, place, fixed, ctype, in_braces(init))?;
            Ok(Found::Passes(()))
        }
        Found::Refused(fault) => Ok(Found::Refused(fault)),
    }
}

/// The initialiser of an array whose size is left out (C11 6.7.9p22): in braces it tells the size, behind which the object is handed on; by an
/// expression no array is initialised.
///
/// Want of memory is the only error, and nothing is said of the context then.
pub(crate) fn array_initialised<
    F: Fn(&mut Context, Within, Part<'_>) -> Result<Found<Told>, NoMemory>,
>(
    checker: &Checker<F>,
    alloc: Global,
    context: &mut Context,
    name: &Declared,
    fixed: bool,
    item: u32,
    init: &Init,
) -> Result<Found<()>, NoMemory>
    requires nests { Nests checker.now.abi checker.now.depth (F.pre checker.now.inner) (F.post checker.now.inner) }
    requires deep { init_levels init.now ≤ checker.now.depth }
    requires below { item < length context.old.types }
    ensures { IfOk result (λ found. Walked (SaysBy checker.now.abi (λ n o. InitialisedIs (name_of (out-Declared name.now)) (ObjectGiven fixed (ItemsOf (n.ctype item))) (Some init.now) o)) nothing context.old context.new found) }
{
    let place = name.place;
    let subject = Subject { place, fixed };
    let count = match init {
        Init::Braces(parts) => parts.len() as u64,
        Init::Value { .. } => return checker.ask_surplus(context, subject, init),
    };
    let ctype = context.array_of(item, count)?;
    let slot = Slot {
        ctype,
        offset: 0,
        braces: true,
    };
    match checker.ask_initialiser(context, subject, slot, init)? {
        Found::Passes(()) => tell_size(alloc, context, name, fixed, ctype, count),
        Found::Refused(fault) => Ok(Found::Refused(fault)),
    }
}

/// Whether an initialiser stands in braces.
pub fn in_braces(init: &Init) -> bool
    ensures { result ≡ in_braces (out-Init init.now) }
{
    match init {
        Init::Braces(_) => true,
        Init::Value { .. } => false,
    }
}
