ghost use Rattle.std.specs.Prelude.{◌≤◌, ◌<◌, Some, IfOk, length};
ghost use Rattle.cbase.specs.declared.tree.expr.ExprForm.TheViews.{out-Declared};
ghost use Rattle.ctrees.specs.Levels.{init_levels};
ghost use Rattle.expressions.specs.Found.{nothing};
ghost use Rattle.expressions.specs.Nests.{Nests};
ghost use Rattle.expressions.specs.Walked.{Walked};
ghost use Rattle.typing.specs.Declarations.{name_of};
ghost use Rattle.typing.specs.Entities.{ItemsOf, WholeType};
ghost use Rattle.typing.specs.Items.{FileInitialisedIs};
ghost use Rattle.items.specs.InFile.{SaysInFileBy};

use crate::declarations::in_braces;
use crate::handing::hand_static;
use crate::telling::tell_size;
use cbase::{Declared, Init, NoMemory};
use expressions::{Checker, Context, Found, Part, Slot, Subject, Told, Within};
use std::alloc::Global;
use typing::environment::DeclaredType;

/// The initialiser of an object of the type of a number (C11 6.7.9), which lives as long as the program runs, and behind which it is handed on where it is
/// `listed`.
///
/// Want of memory is the only error, and nothing is said of the context then.
pub(crate) fn object_initialised<
    F: Fn(&mut Context, Within, Part<'_>) -> Result<Found<Told>, NoMemory>,
>(
    checker: &Checker<F>,
    context: &mut Context,
    name: &Declared,
    listed: bool,
    ctype: u32,
    init: &Init,
) -> Result<Found<()>, NoMemory>
    requires nests { Nests checker.now.abi checker.now.depth (F.pre checker.now.inner) (F.post checker.now.inner) }
    requires deep { init_levels init.now ≤ checker.now.depth }
    requires below { ctype < length context.old.types }
    ensures { IfOk result (λ found. Walked (SaysInFileBy checker.now.abi (λ n o. FileInitialisedIs (name_of (out-Declared name.now)) listed (WholeType (n.ctype ctype)) (Some init.now) o)) nothing context.old context.new found) }
{
    let place = name.place;
    let subject = Subject { place, fixed: true };
    let slot = Slot {
        ctype,
        offset: 0,
        braces: true,
    };
    match checker.ask_initialiser(context, subject, slot, init)? {
        Found::Passes(()) => {
            let whole = DeclaredType::Whole(ctype);
            hand_static(context, listed, place, whole, in_braces(init))?;
            Ok(Found::Passes(()))
        }
        Found::Refused(fault) => Ok(Found::Refused(fault)),
    }
}

/// The initialiser of an array whose size no declaration has told yet (C11 6.7.9p22): in braces it tells the size, behind which the object is handed on
/// where it is `listed`; by an expression no array is initialised.
///
/// Want of memory is the only error, and nothing is said of the context then.
pub(crate) fn array_initialised<
    F: Fn(&mut Context, Within, Part<'_>) -> Result<Found<Told>, NoMemory>,
>(
    checker: &Checker<F>,
    alloc: Global,
    context: &mut Context,
    name: &Declared,
    listed: bool,
    item: u32,
    init: &Init,
) -> Result<Found<()>, NoMemory>
    requires nests { Nests checker.now.abi checker.now.depth (F.pre checker.now.inner) (F.post checker.now.inner) }
    requires deep { init_levels init.now ≤ checker.now.depth }
    requires below { item < length context.old.types }
    ensures { IfOk result (λ found. Walked (SaysInFileBy checker.now.abi (λ n o. FileInitialisedIs (name_of (out-Declared name.now)) listed (ItemsOf (n.ctype item)) (Some init.now) o)) nothing context.old context.new found) }
{
    let place = name.place;
    let subject = Subject { place, fixed: true };
    let count = match init {
        Init::Braces(parts) => parts.len() as u64,
        Init::Value { .. } => return checker.ask_surplus(context, subject, init),
    };
    let ctype = context.array_of(item, count)?;
    let slot = Slot {
        ctype,
        offset: 0,
        braces: true,
    };
    match checker.ask_initialiser(context, subject, slot, init)? {
        Found::Passes(()) => tell_size(alloc, context, name, listed, ctype, count),
        Found::Refused(fault) => Ok(Found::Refused(fault)),
    }
}
