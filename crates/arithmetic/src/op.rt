/// An operator on two integers of one type.
#[derive(Clone, Copy, Debug, PartialEq, Eq)]
pub enum Op {
    /// `+` (C11 6.5.6p5).
    Add,
    /// `-` (C11 6.5.6p6).
    Sub,
    /// `*` (C11 6.5.5p4).
    Mul,
    /// `/` (C11 6.5.5p5).
    Div,
    /// `%` (C11 6.5.5p5).
    Rem,
    /// `&` (C11 6.5.10).
    And,
    /// `|` (C11 6.5.12).
    Or,
    /// `^` (C11 6.5.11).
    Xor,
    /// `<<` (C11 6.5.7p4).
    Left,
    /// `>>` (C11 6.5.7p5).
    Right,
    /// `<` (C11 6.5.8).
    Less,
    /// `<=` (C11 6.5.8).
    LessEqual,
}
