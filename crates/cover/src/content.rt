use graph::Target;

/// What a value of a graph is. Two keys may hold equal constants or addresses.
#[derive(Clone, Copy, PartialEq, Eq)]
pub enum Content {
    /// This plain number of this size.
    Fixed {
        number: u64,
        size: u8,
    },
    /// A pointer into a block of an object.
    Leads {
        object: u32,
        offset: i64,
        target: Target,
    },
    /// The word of the value with this key, which is not known.
    Kept {
        key: u32,
    },
}
