ghost use Rattle.std.specs.Prelude.{◌≡◌, ◌<◌, ◌≤◌, ◌+◌, ℕ, length, map, IfOk, IfSome};
ghost use Rattle.cbase.specs.declared.place.Place.{Place as PlaceOf};
ghost use Rattle.cbase.specs.declared.tree.expr.ExprForm.TheOpen.{Value, Braces};
ghost use Rattle.cbase.specs.declared.tree.expr.ExprForm.TheViews.{out-Init};
ghost use Rattle.cbase.specs.declared.tree.init.Init.{Init as InitOf};
ghost use Rattle.ctrees.specs.Levels.{depth, expr_levels, init_levels, init_part_levels};
ghost use Rattle.ctrees.specs.Weight.{joined};
ghost use Rattle.typing.specs.Statements.{Surplus as AsSurplus};
ghost use Rattle.typing.specs.Typing.{ValueUsed, InitialiserIs, PartsFill, SurplusAre};
ghost use Rattle.expressions.specs.Found.{nothing};
ghost use Rattle.expressions.specs.Nests.{Nests, SaysInitialiser, subject_of, slot_at};
ghost use Rattle.expressions.specs.Walked.{Walked, Says, SaysBy};
ghost use Rattle.items.specs.initialisers.Filled.{filled_at, IsKept};

use crate::initialisers::filled::{Filled, filled_of};
use crate::initialisers::next::{Next, ended, following, next_in};
use crate::initialisers::storing::{no_member, store, unwanted};
use crate::initialisers::surplus::first_value;
use cbase::{Expr, Init, InitPart, NoMemory, Place};
use expressions::{Checker, Context, Found, Part, Slot, Subject, Told, Within};
use std::alloc::Global;

/// What is found of an initialiser of what is set in an object, or of one for which there is no place (C11 6.7.9): its expressions are walked in the order of
/// the text, and a store is handed on behind each value.
///
/// Want of memory is the only error, and nothing is said of the context then. What would be set more than 2^32 bytes behind the front of an array whose size its parts
/// tell is answered in the same way, and so is what lies in a part of more than 65,536 bytes, of which no object is made.
pub fn initialiser<F: Fn(&mut Context, Within, Part<'_>) -> Result<Found<Told>, NoMemory>>(
    checker: &Checker<F>,
    _alloc: Global,
    context: &mut Context,
    subject: Subject,
    slot: Option<Slot>,
    init: &Init,
) -> Result<Found<()>, NoMemory>
    requires nests { Nests checker.now.abi checker.now.depth (F.pre checker.now.inner) (F.post checker.now.inner) }
    requires deep { init_levels init.now ≤ checker.now.depth + 1 }
    requires slot { IfSome slot (λ set. set.ctype < length context.old.types) }
    ensures { IfOk result (λ found. Walked (SaysInitialiser checker.now.abi subject slot init.now) nothing context.old context.new found) }
{
    match init {
        Init::Value { value, .. } => match slot {
            Some(slot) => stored(checker, context, subject, slot, value),
            None => surplus_value(checker, context, value),
        },
        Init::Braces(parts) => match slot {
            Some(slot) => braces(checker, context, subject, slot, parts.as_slice()),
            None => surplus(checker, context, subject.place, parts.as_slice()),
        },
    }
}

/// A value, which is stored whole (C11 6.7.9p11, p13).
fn stored<F: Fn(&mut Context, Within, Part<'_>) -> Result<Found<Told>, NoMemory>>(
    checker: &Checker<F>,
    context: &mut Context,
    subject: Subject,
    slot: Slot,
    value: &Expr,
) -> Result<Found<()>, NoMemory>
    requires nests { Nests checker.now.abi checker.now.depth (F.pre checker.now.inner) (F.post checker.now.inner) }
    requires deep { expr_levels value.now ≤ checker.now.depth }
    requires slot { slot.ctype < length context.old.types }
    ensures { (init : InitOf) (after : PlaceOf) → out-Init init ≡ Value value.now after → IfOk result (λ found. Walked (SaysBy checker.now.abi (λ n o. InitialiserIs (subject_of subject) (slot_at n slot) init o)) nothing context.old context.new found) }
{
    let before = context.handed().len();
    match checker.loaded(context, value)? {
        Found::Passes(known) => store(context, before, subject, slot, value, known),
        Found::Refused(fault) => Ok(Found::Refused(fault)),
    }
}

/// Parts in braces, where they may stand, or too many braces (C11 6.7.9p11, p16).
fn braces<F: Fn(&mut Context, Within, Part<'_>) -> Result<Found<Told>, NoMemory>>(
    checker: &Checker<F>,
    context: &mut Context,
    subject: Subject,
    slot: Slot,
    parts: &[InitPart],
) -> Result<Found<()>, NoMemory>
    requires nests { Nests checker.now.abi checker.now.depth (F.pre checker.now.inner) (F.post checker.now.inner) }
    requires deep { joined depth (map init_part_levels parts.now) ≤ checker.now.depth }
    requires slot { slot.ctype < length context.old.types }
    ensures { (init : InitOf) → out-Init init ≡ Braces parts.now → IfOk result (λ found. Walked (SaysBy checker.now.abi (λ n o. InitialiserIs (subject_of subject) (slot_at n slot) init o)) nothing context.old context.new found) }
{
    match filled_of(context, slot)? {
        Some(filled) => fill(checker, context, subject, filled, parts),
        None => surplus(checker, context, subject.place, parts),
    }
}

/// The parts in braces, each of which sets what follows the one before, or the member that its designator names (C11 6.7.9p17 to p19).
fn fill<F: Fn(&mut Context, Within, Part<'_>) -> Result<Found<Told>, NoMemory>>(
    checker: &Checker<F>,
    context: &mut Context,
    subject: Subject,
    filled: Filled,
    parts: &[InitPart],
) -> Result<Found<()>, NoMemory>
    requires nests { Nests checker.now.abi checker.now.depth (F.pre checker.now.inner) (F.post checker.now.inner) }
    requires deep { joined depth (map init_part_levels parts.now) ≤ checker.now.depth }
    requires kept { IsKept (length context.old.types) context.old.structs filled }
    ensures { IfOk result (λ found. Walked (SaysBy checker.now.abi (λ n o. PartsFill (subject_of subject) (filled_at n context.old.structs filled) 0 parts.now o)) nothing context.old context.new found) }
{
    let mut index = 0;
    for at in 0..parts.len() {
        let part = &parts[at];
        match next_in(context, filled, index, &part.member)? {
            Next::Sets(here, slot) => {
                match checker.ask_initialiser(context, subject, slot, &part.init)? {
                    Found::Passes(()) => index = following(here)?,
                    Found::Refused(fault) => return Ok(Found::Refused(fault)),
                }
            }
            Next::NoMember(place) => return Ok(no_member(place)),
            Next::Full => return surplus(checker, context, subject.place, &parts[at..]),
        }
    }
    Ok(ended(subject.place, filled, index))
}

/// Parts for which there is no place: the value of the first of them is walked, and is rule 5 then; where it has none, it is rule 5 at the declared name (C11
/// 6.7.9p2).
fn surplus<F: Fn(&mut Context, Within, Part<'_>) -> Result<Found<Told>, NoMemory>>(
    checker: &Checker<F>,
    context: &mut Context,
    place: Place,
    parts: &[InitPart],
) -> Result<Found<()>, NoMemory>
    requires nests { Nests checker.now.abi checker.now.depth (F.pre checker.now.inner) (F.post checker.now.inner) }
    requires deep { joined depth (map init_part_levels parts.now) ≤ checker.now.depth }
    ensures { IfOk result (λ found. Walked (Says checker.now.abi (λ o. SurplusAre place parts.now o)) nothing context.old context.new found) }
{
    match first_value(parts) {
        Some(value) => surplus_value(checker, context, value),
        None => Ok(unwanted(place)),
    }
}

/// A value for which there is no place: it is walked, and is rule 5 then.
fn surplus_value<F: Fn(&mut Context, Within, Part<'_>) -> Result<Found<Told>, NoMemory>>(
    checker: &Checker<F>,
    context: &mut Context,
    value: &Expr,
) -> Result<Found<()>, NoMemory>
    requires nests { Nests checker.now.abi checker.now.depth (F.pre checker.now.inner) (F.post checker.now.inner) }
    requires deep { expr_levels value.now ≤ checker.now.depth }
    ensures { IfOk result (λ found. Walked (Says checker.now.abi (λ o. ValueUsed AsSurplus value.now o)) nothing context.old context.new found) }
{
    match checker.loaded(context, value)? {
        Found::Passes(_) => Ok(unwanted(value.place)),
        Found::Refused(fault) => Ok(Found::Refused(fault)),
    }
}
