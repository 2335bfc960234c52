/// What may stand in a tree and has a level less than it.
#[derive(Clone, Copy)]
pub enum Wanted {
    /// An operand: a cast or a unary expression (C11 6.5.4).
    Cast,
    /// Operands with binary operators between them that are no looser than a level (C11 6.5.5 to 6.5.14).
    Operation {
        /// The level of the loosest of them.
        loosest: u32,
    },
    /// A conditional expression (C11 6.5.15).
    Conditional,
    /// An assignment expression (C11 6.5.16).
    Assignment,
    /// An expression (C11 6.5.17).
    Expression,
    /// A type (C11 6.7.2).
    Specifier,
    /// An initialiser (C11 6.7.9).
    Initializer,
    /// A declaration or an expression with its `;` (C11 6.8.3, 6.8.5).
    Clause,
    /// A statement (C11 6.8).
    Statement,
    /// A declaration or a statement in a block (C11 6.8.2).
    Item,
}
