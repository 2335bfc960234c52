use crate::role::Role;
use ctokens::TokenKind;

/// A token that is not passed over: what it is to the names that an item defines, and which bytes it has. Where it stands is
/// left out, so that a row takes little memory.
#[derive(Clone, Copy)]
pub(crate) struct Sign {
    /// What it is.
    pub(crate) role: Role,
    /// What its bytes spell.
    pub(crate) kind: TokenKind,
    /// The number of its first byte in the text, from 0.
    pub(crate) from: u32,
    /// The number of the byte behind its last one, above `from`.
    pub(crate) to: u32,
}
