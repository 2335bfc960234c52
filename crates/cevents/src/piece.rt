use cbase::{
    Boxed, Decl, Declared, Enumerator, Expr, FieldDecl, FieldName, Init, InitPart, Item, List,
    Param, Part, Stmt, TypeName, TypeSpec,
};

/// A tree, or a list of trees, that other trees may be made of. A tree stands behind a pointer, so that a piece is small.
#[derive(Drop)]
pub enum Piece {
    /// An expression.
    Expr(Boxed<Expr>),
    /// The arguments of a call.
    Arguments(List<Expr>),
    /// The members and indices of `__builtin_offsetof`.
    Path(List<Part>),
    /// A type.
    Type(Boxed<TypeSpec>),
    /// Sizes of arrays, which may be left out.
    Sizes(List<Option<Expr>>),
    /// The name of a type.
    TypeName(Boxed<TypeName>),
    /// The declarators of fields.
    FieldNames(List<FieldName>),
    /// Declarations of fields.
    Fields(List<FieldDecl>),
    /// Enumerators.
    Enumerators(List<Enumerator>),
    /// Parameters.
    Parameters(List<Param>),
    /// Declarators.
    Declarators(List<Declared>),
    /// A declaration.
    Declaration(Boxed<Decl>),
    /// An initialiser.
    Init(Boxed<Init>),
    /// The parts of an initialiser in braces.
    Parts(List<InitPart>),
    /// An expression that may be left out.
    Maybe(Option<Boxed<Expr>>),
    /// A statement.
    Statement(Boxed<Stmt>),
    /// Statements.
    Statements(List<Stmt>),
    /// An item of a file.
    Item(Boxed<Item>),
}
