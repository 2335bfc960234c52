/// Which block of an object an address leads to.
#[derive(Clone, Copy, PartialEq, Eq)]
pub enum Target {
    /// The one block of an object that is a region.
    Region,
    /// The first node of a segment, or what lies behind a segment without nodes.
    First,
    /// The last node of a segment that is linked both ways, or what lies before one without nodes.
    Last,
    /// Each node itself. Such an address stands only in what is said of the nodes of the segment that it names.
    Each,
}

/// What is known of a word.
#[derive(Clone, Copy, PartialEq, Eq)]
pub enum Value {
    /// This plain number.
    Const {
        /// The number, without sign. It fits the size.
        number: u64,
        /// In bytes: 1, 2, 4 or 8.
        size: u8,
    },
    /// Some plain number of this size.
    Number {
        /// In bytes: 1, 2, 4 or 8.
        size: u8,
    },
    /// Any word of eight bytes: a plain number or a pointer.
    Any,
    /// A pointer into a block of an object. It has eight bytes.
    Address {
        /// The key of the object.
        object: u32,
        /// Where in the block it leads, in bytes from its first one. It may lie outside the block.
        offset: i64,
        /// Which block of the object it leads to.
        target: Target,
    },
}
