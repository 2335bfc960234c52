use cbase::{List, Place, Text};

/// What the bytes of a token spell (C11 6.4). A keyword is a word.
#[derive(Clone, Copy, Debug, PartialEq, Eq)]
pub enum TokenKind {
    /// A letter, `_` or `$`, then letters, digits, `_` and `$` (C11 6.4.2).
    Word,
    /// A preprocessing number (C11 6.4.8).
    Number,
    /// A character constant of one byte or one escape (C11 6.4.4.4).
    Letter,
    /// A string literal (C11 6.4.5).
    Quoted,
    /// A punctuator (C11 6.4.6).
    Mark,
}

/// A token of a text: a row of its bytes, with the place where it stands.
#[derive(Clone, Copy, Debug, PartialEq, Eq)]
pub struct Token {
    /// What its bytes spell.
    pub kind: TokenKind,
    /// The number of its first byte in the text, from 0.
    pub from: u32,
    /// The number of the byte behind its last one, above `from`.
    pub to: u32,
    /// Where its first byte stands. Its `at` is the number of the token in the text, from 0.
    pub place: Place,
}

/// The tokens of a text.
#[derive(Drop)]
pub struct Tokens {
    /// The text.
    pub text: Text,
    /// Its tokens, in order.
    pub list: List<Token>,
    /// The names of files to which places refer by number: the one that was given for the text, then those
    /// of its line markers, each once.
    pub names: List<Text>,
    /// The numbers of the tokens before which `#pragma pack` lines stand: for each line, how many tokens stand
    /// before it.
    pub packs: List<u32>,
}

/// The first place of a text at which nothing begins that it may hold.
#[derive(Drop)]
pub struct Lexical {
    /// The place; its `at` is how many tokens stand before it.
    pub place: Place,
    /// The names of files up to there, to which places refer by number: the one that was given for the text, then
    /// those of its line markers, each once.
    pub names: List<Text>,
}
