/// A construct that a token of a row shows.
#[derive(Clone, Copy, Debug, PartialEq, Eq)]
pub struct Found {
    /// The number by which it is given up: 1 to 6, 8 to 10 or 20, as `specs/Constructs.antt` lists them.
    pub number: u8,
    /// How many tokens of the row stand before the token. The row has no tokens that are passed over.
    pub at: usize,
}
