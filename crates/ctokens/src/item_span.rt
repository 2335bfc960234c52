use cbase::Place;

/// An item of a text: a row of its tokens that ends at bracket depth 0 or with the text. Tokens are numbered from 0.
#[derive(Clone, Copy, Debug, PartialEq, Eq)]
pub struct ItemSpan {
    /// The number of its first token.
    pub first: u32,
    /// The number of the token behind its last one.
    pub after: u32,
}

/// The first bracket of a text that opens at depth 257, itself counted, the three kinds counted together.
#[derive(Clone, Copy, Debug, PartialEq, Eq)]
pub struct Deep {
    /// Where the bracket stands. Its `at` is the number of the bracket among the tokens of the text, from 0.
    pub place: Place,
}
