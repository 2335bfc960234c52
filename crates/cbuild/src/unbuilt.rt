use cbase::NoMemory;

/// Why events made no tree.
#[derive(Clone, Copy, Debug, PartialEq, Eq)]
pub enum Unbuilt {
    /// They are the events of no tree of the kind.
    Wrong,
    /// Memory was wanting. It is told also where a count of expressions, or of `*` before a name, fits no number of 32 bits:
    /// it needs more tokens than memory holds.
    NoMemory,
}
