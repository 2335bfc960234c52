use cbase::Place;

/// Why an item is not read.
#[derive(Clone, Copy, Debug, PartialEq, Eq)]
pub enum Unread {
    /// A construct of C that is given up stands at the place: the first change of layout, whose number is 7, or else the
    /// first construct, whose number is 1 to 6, 8 to 10 or 20 (`docs/report.md` names them).
    Construct { number: u8, place: Place },
    /// The grammar spells the item by no tree of at most 1,024 levels, and it has no such construct. It begins at the place.
    Syntax { place: Place },
}
