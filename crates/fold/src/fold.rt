//! Two neighbours of a list, and how a value stands in both.

/// Two neighbours of a list, and how they are linked.
#[derive(Clone, Copy, PartialEq, Eq)]
pub struct Fold {
    /// The key of the object that comes first.
    pub first: u32,
    /// The key of the one behind it.
    pub second: u32,
    /// Whether they are linked both ways.
    pub twofold: bool,
    /// At which place in a node the links to it lead that come from the node before.
    pub head: u32,
    /// The first of the eight bytes of a node that hold the link to the next one.
    pub next: u32,
    /// The first of the eight bytes of a node that hold the link to the one before; 0 where there is none.
    pub prev: u32,
    /// At which place in a node the links to it lead that come from the next node; 0 where there is none.
    pub back: u32,
}

/// How the value of a range of the first of two neighbours stands in the second one.
#[derive(Clone, Copy, PartialEq, Eq)]
pub enum Standing {
    /// As the same value.
    Same,
    /// As the address of each node itself, at this offset.
    Own { offset: i64 },
    /// Not, where one or both hold a plain number.
    Apart,
    /// Not, where one holds an address or may hold one.
    Barred,
}
