use crate::known::Known;
use crate::named_type::NamedType;
use cbase::{Enumerator, Expr, FieldDecl, Identifier, Init, List, Place, Stmt, TypeName};

/// The object that an initialiser sets.
#[derive(Clone, Copy)]
pub struct Subject {
    /// Where its name stands in the declaration.
    pub place: Place,
    /// Whether it lives as long as the program runs (C11 6.2.4p3).
    pub fixed: bool,
}

/// An object that is set, or a part of one.
#[derive(Clone, Copy)]
pub struct Slot {
    /// The number of its type.
    pub ctype: u32,
    /// How many bytes stand before it in the object that is declared.
    pub offset: u64,
    /// Whether it may stand in braces: a number or a pointer may stand in one pair of them (C11 6.7.9p11).
    pub braces: bool,
}

/// A part of a tree that lies in another one.
#[derive(Clone, Copy)]
pub enum Part<'a> {
    /// An expression (C11 6.5).
    Expression(&'a Expr),
    /// A type name (C11 6.7.7).
    TypeName(&'a TypeName),
    /// A statement or a declaration in a block (C11 6.8), which is not the last expression of a statement expression.
    Statement(&'a Stmt),
    /// An initialiser (C11 6.7.9) of what is set in an object, or one for which there is no place.
    Initialiser(Subject, Option<Slot>, &'a Init),
    /// A struct with its members in braces (C11 6.7.2.1): its tag, where it has one, and the declarations of the members.
    Members(&'a Option<Identifier>, &'a List<FieldDecl>),
    /// An enum with its constants in braces (C11 6.7.2.2): its tag, where it has one, and the constants.
    Enumerators(&'a Option<Identifier>, &'a List<Enumerator>),
}

/// What is told of a part that passes.
#[derive(Clone, Copy)]
pub enum Told {
    /// Of an expression.
    Expression(Known),
    /// Of a type name, and of a struct or an enum with braces.
    TypeName(NamedType),
    /// Of a statement and of an initialiser.
    Nothing,
}
