ghost use Rattle.std.specs.Prelude.{◌≡◌};
ghost use Rattle.ccheck.specs.Refusals.{of_broken, of_fault, of_unread, place_at};

use cbase::Place;
use cread::Unread;
use ctokens::Tokens;
use typing::Fault;
use typing::ctypes::Broken;

/// Why an item that main needs is refused.
#[derive(Clone, Copy, Debug, PartialEq, Eq)]
pub enum Refusal {
    /// It changes a layout, it is not read and has a construct of C that is given up, or it is read and its types show one.
    Construct {
        /// The number of the construct, from 1 to 21.
        number: u8,
        /// That of the token that shows it.
        place: Place,
    },
    /// The grammar spells it by no tree of at most 1,024 levels, and it has no construct that is given up.
    Syntax {
        /// That of its first token.
        place: Place,
    },
    /// It is read, and a rule on types, declarations or statements is broken in it (C11 6.5 to 6.9).
    Rule {
        /// The number of the rule.
        number: u8,
        /// That of the token where it is broken.
        place: Place,
    },
}

/// What is answered of an item that is not read.
pub(crate) fn of_unread(unread: Unread) -> Refusal
    ensures { result ≡ of_unread unread }
{
    match unread {
        Unread::Construct { number, place } => Refusal::Construct { number, place },
        Unread::Syntax { place } => Refusal::Syntax { place },
    }
}

/// What is answered of an item in which something is refused: at the token before which as many tokens stand as before the fault.
pub(crate) fn of_fault(t: &Tokens, fault: Fault) -> Refusal
    ensures { result ≡ of_fault t.now fault }
{
    of_broken(place_at(t, fault.place.at), fault.broken)
}

/// What is broken at a place.
fn of_broken(place: Place, broken: Broken) -> Refusal
    ensures { result ≡ of_broken place broken }
{
    match broken {
        Broken::Rule(number) => Refusal::Rule { number, place },
        Broken::Construct(number) => {
            if 1 <= number && number <= 21 {
                Refusal::Construct { number, place }
            } else {
                Refusal::Syntax { place }
            }
        }
    }
}

/// The place of the token before which so many stand; past the last one that of none.
pub(crate) fn place_at(t: &Tokens, number: u32) -> Place
    ensures { result ≡ place_at t.now number }
{
    match t.list.as_slice().get(number as usize) {
        Some(token) => token.place,
        None => Place {
            file: 0,
            line: 0,
            column: 0,
            at: 0,
        },
    }
}
