/// What a conversion is in the graph (C11 6.3).
#[derive(Clone, Copy, Debug, PartialEq, Eq)]
pub enum Conversion {
    /// The value stays as it is.
    Nothing,
    /// An edge converts it.
    Resized {
        /// How many bytes it gets.
        bytes: u8,
        /// Whether the type that is converted has a sign.
        signed: bool,
    },
    /// A test makes it a `_Bool` (C11 6.3.1.2).
    Tested,
    /// It is let go of: it becomes `void` (C11 6.3.2.2).
    Dropped,
    /// The machine knows none.
    Unknown,
}
