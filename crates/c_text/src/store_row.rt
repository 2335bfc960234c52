/// Which store of an initialiser it is.
#[derive(Clone, Copy, PartialEq, Eq, Hash)]
pub(crate) struct StoreKey {
    /// How many tokens stand before the name of the object that is set.
    pub object: u32,
    /// The number of the expression whose value is stored.
    pub number: u32,
}

/// What typing hands on of a store of an initialiser (C11 6.7.9).
#[derive(Clone, Copy)]
pub(crate) struct StoreRow {
    /// How many tokens stand before the name of the object that is set.
    pub object: u32,
    /// How many bytes of the object stand before what is set.
    pub offset: u32,
    /// The number of the type of what is set.
    pub ctype: u32,
    /// The number of the expression whose value is stored.
    pub number: u32,
}
