use crate::token::TokenKind;
use cbase::Text;

/// What a text is made of, one piece behind the other (C11 5.1.1.2, 6.4, 6.10).
#[derive(Drop)]
pub(crate) enum PieceKind {
    /// A byte that is a blank.
    Blank,
    /// A comment, which stands for a blank.
    Comment,
    /// A directive line that means nothing here, `#ident` or a `#pragma` other than `#pragma pack`.
    PassedOver,
    /// A `#pragma pack` line.
    Pack,
    /// A line marker.
    Marker {
        /// The number of the line that follows.
        number: u32,
        /// The name of the file in which it stands.
        name: Text,
    },
    /// A token.
    Lexeme(TokenKind),
}

/// What a text begins with.
#[derive(Drop)]
pub(crate) struct Piece {
    /// What it is.
    pub(crate) kind: PieceKind,
    /// How many bytes it takes. A directive line takes its newline too.
    pub(crate) taken: usize,
}
