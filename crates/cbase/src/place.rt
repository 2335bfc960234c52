/// Where a token of the text stands.
#[derive(Clone, Copy, Debug, PartialEq, Eq)]
pub struct Place {
    /// The number of its file's name, in the list of the names that the text gives.
    pub file: u32,
    /// Its line, as line markers count them.
    pub line: u32,
    /// The column of its first byte, in bytes from 1.
    pub column: u32,
    /// How many tokens stand before it in the text.
    pub at: u32,
}

impl Place {
    /// The place of no token: no token has column 0.
    pub const NONE: Place = Place {
        file: 0,
        line: 0,
        column: 0,
        at: 0,
    };
}
