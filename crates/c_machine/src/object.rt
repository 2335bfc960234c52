/// An object that a block makes, or that lives as long as the program runs (C11 6.2.4).
#[derive(Clone, Copy, Debug, PartialEq, Eq)]
pub struct Object {
    /// How many tokens stand before the name that declared it first, if it has a name.
    pub token: Option<u32>,
    /// How many bytes it has.
    pub bytes: u64,
}
