/// An object of a run (C11 6.2.4).
#[derive(Clone, Copy, Debug, PartialEq, Eq)]
pub struct Variable {
    /// How many tokens stand before the name that declared it first, if it has a name.
    pub token: Option<u32>,
    /// The number of its block in the memory.
    pub block: u32,
}
