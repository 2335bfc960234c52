use cbase::Expr;

/// An expression that an operator may take, with whether it may stand to the left of an assignment (C11 6.5.16).
///
/// The reader of `specs/Reader.antt` gives it; no code makes one.
#[derive(Drop)]
pub struct Operand {
    /// The expression.
    pub expr: Expr,
    /// Whether it is a unary expression, and no cast.
    pub unary: bool,
}
