ghost use Rattle.std.specs.Prelude.{◌≡◌, ◌<◌, ◌≤◌, length, IfOk};
ghost use Rattle.typing.specs.declared.ctypes.found.Broken.TheVariants.{Rule};
ghost use Rattle.typing.specs.Faults.{fault};
ghost use Rattle.expressions.specs.declared.found.Found.TheVariants.{Refused};
ghost use Rattle.items.specs.initialisers.Storing.{IsForm, IsJudged, IsStored};

use crate::initialisers::constant::{Use, is_constant};
use crate::initialisers::testing::is_test_of_pointer;
use cbase::{Expr, NoMemory, Place};
use expressions::{Context, Found, HandedRow, Known, Slot, Subject};
use typing::Fault;
use typing::ctypes::Broken;

/// Stores a value of which so much is known: what is broken at it, or the store is handed on. `before` rows were handed on when the value began.
///
/// An offset of 2^32 or more, which no object has, is answered as want of memory.
pub(crate) fn store(
    context: &mut Context,
    before: usize,
    subject: Subject,
    slot: Slot,
    value: &Expr,
    known: Known,
) -> Result<Found<()>, NoMemory>
    requires before { before ≤ length context.old.handed }
    requires slot { slot.ctype < length context.old.types }
    requires known { known.ctype < length context.old.types }
    ensures { IfOk result (λ found. IsStored before subject slot value.now known context.old context.new found) }
{
    if let Some(fault) = fault_of(context, before, subject.fixed, slot.ctype, value, known)? {
        return Ok(Found::Refused(fault));
    }
    let Ok(offset) = u32::try_from(slot.offset) else {
        return Err(NoMemory);
    };
    context.hand_on(HandedRow::Store {
        object: subject.place.at,
        offset,
        ctype: slot.ctype,
        number: value.number,
    })?;
    Ok(Found::Passes(()))
}

/// What is broken at a value that is stored: one that does not convert is rule 5 (C11 6.7.9p11, p13), and one of an object that lives as long as the program
/// runs is of the form of a constant, and no pointer that becomes a `_Bool`, or rule 9 (6.7.9p4).
fn fault_of(
    context: &Context,
    before: usize,
    fixed: bool,
    to: u32,
    value: &Expr,
    known: Known,
) -> Result<Option<Fault>, NoMemory>
    requires before { before ≤ length context.now.handed }
    requires to { to < length context.now.types }
    requires known { known.ctype < length context.now.types }
    ensures { IfOk result (λ found. IsJudged context.now before fixed to value.now known found) }
{
    let constant = is_asked(context, before, fixed, value)?;
    if !context.converts(to, known.operand()) {
        return Ok(Some(broken(value.place, 5)));
    }
    if !constant {
        return Ok(Some(broken(value.place, 9)));
    }
    if fixed && is_test_of_pointer(context, to, known.ctype) {
        return Ok(Some(broken(value.place, 9)));
    }
    Ok(None)
}

/// Whether a value has the form of a constant, where that is asked: of an object that lives as long as the program runs.
fn is_asked(context: &Context, before: usize, fixed: bool, value: &Expr) -> Result<bool, NoMemory>
    requires { before ≤ length context.now.handed }
    ensures { IfOk result (λ constant. IsForm context.now before fixed value.now constant) }
{
    if !fixed {
        return Ok(true);
    }
    is_constant(context, &context.handed()[before..], Use::Value, value)
}

/// A rule that is broken at a place.
pub(crate) fn broken(place: Place, rule: u8) -> Fault
    ensures { result ≡ fault place (Rule rule) }
{
    Fault {
        place,
        broken: Broken::Rule(rule),
    }
}

/// A part more than there is place for.
pub(crate) fn unwanted(place: Place) -> Found<()>
    ensures { result ≡ Refused (fault place (Rule 5)) }
{
    Found::Refused(broken(place, 5))
}

/// A designator that names no member (C11 6.7.9p7).
pub(crate) fn no_member(place: Place) -> Found<()>
    ensures { result ≡ Refused (fault place (Rule 6)) }
{
    Found::Refused(broken(place, 6))
}
