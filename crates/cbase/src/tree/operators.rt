/// A unary operator of C11 6.5.3.3 and 6.5.3.2; `++`, `--` and `sizeof` have forms of their own.
#[derive(Clone, Copy, Debug, PartialEq, Eq)]
pub enum UnaryOp {
    /// `&`, the address of an lvalue.
    Address,
    /// `*`, what a pointer points to.
    Follow,
    /// `+`.
    Plus,
    /// `-`.
    Minus,
    /// `~`, each bit the other way.
    Flip,
    /// `!`.
    Not,
}

/// A binary operator of C11 6.5.5 to 6.5.14, and the comma of C11 6.5.17.
#[derive(Clone, Copy, Debug, PartialEq, Eq)]
pub enum BinaryOp {
    /// `*`.
    Mul,
    /// `/`.
    Div,
    /// `%`.
    Rem,
    /// `+`.
    Add,
    /// `-`.
    Sub,
    /// `<<`.
    Left,
    /// `>>`.
    Right,
    /// `<`.
    Less,
    /// `>`.
    Greater,
    /// `<=`.
    LessEqual,
    /// `>=`.
    GreaterEqual,
    /// `==`.
    Equal,
    /// `!=`.
    NotEqual,
    /// `&`, bit by bit.
    And,
    /// `^`, bit by bit.
    Xor,
    /// `|`, bit by bit.
    Or,
    /// `&&`.
    Both,
    /// `||`.
    Either,
    /// `,`.
    Comma,
}
