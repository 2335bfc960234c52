ghost use Rattle.std.specs.Prelude.{◌≡◌, ◌++◌, List};
ghost use Rattle.typing.specs.declared.fault.Fault.{Fault};
ghost use Rattle.typing.specs.Faults.{unless, all_at, comes_before, least};
ghost use Rattle.expressions.specs.Settled.{IsFirstOf};

use cbase::Place;
use typing::Fault;
use typing::ctypes::Broken;

/// Whether one thing that is broken comes before another, or is the same: constructs come before rules, and lower numbers first.
pub fn comes_before(first: Broken, second: Broken) -> bool
    ensures { result ≡ comes_before first second }
{
    match (first, second) {
        (Broken::Construct(first), Broken::Construct(second)) => first <= second,
        (Broken::Construct(_), Broken::Rule(_)) => true,
        (Broken::Rule(_), Broken::Construct(_)) => false,
        (Broken::Rule(first), Broken::Rule(second)) => first <= second,
    }
}

/// The least of two things that are broken at one place.
pub fn least(first: Option<Broken>, second: Option<Broken>) -> Option<Broken>
    ensures { result ≡ least first second }
{
    match (first, second) {
        (None, second) => second,
        (first, None) => first,
        (Some(first), Some(second)) => Some(if comes_before(first, second) {
            first
        } else {
            second
        }),
    }
}

/// What is broken where something is asked that does not hold.
pub fn unless(holds: bool, place: Place, broken: Broken) -> Option<Fault>
    ensures { IsFirstOf (unless holds place broken) result }
{
    if holds {
        None
    } else {
        Some(Fault { place, broken })
    }
}

/// What is found, at a place.
pub fn all_at(place: Place, found: Option<Broken>) -> Option<Fault>
    ensures { IsFirstOf (all_at place found) result }
{
    let broken = found?;
    Some(Fault { place, broken })
}

/// The first of what is broken, of which some is asked before the rest: of what comes equally early, what is asked first.
pub fn first_of(one: Option<Fault>, other: Option<Fault>) -> Option<Fault>
    ensures { (faults others : List Fault) → IsFirstOf faults one → IsFirstOf others other → IsFirstOf (faults ++ others) result }
{
    match (one, other) {
        (None, other) => other,
        (one, None) => one,
        (Some(one), Some(other)) => Some(if comes_before(one.broken, other.broken) {
            one
        } else {
            other
        }),
    }
}
