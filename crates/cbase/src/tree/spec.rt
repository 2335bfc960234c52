use crate::boxed::Boxed;
use crate::list::List;
use crate::place::Place;
use crate::text::Text;
use crate::tree::decl::TypeName;
use crate::tree::expr::Expr;
use crate::tree::identifier::Identifier;

/// The rank of an integer type (C11 6.3.1.1). The data layout says how many bytes it has.
#[derive(Clone, Copy, Debug, PartialEq, Eq)]
pub enum Rank {
    /// `char`.
    Char,
    /// `short`.
    Short,
    /// `int`.
    Int,
    /// `long`.
    Long,
    /// `long long`.
    LongLong,
}

/// A type that is spelled by keywords alone (C11 6.7.2).
#[derive(Clone, Copy, Debug, PartialEq, Eq)]
pub enum BasicType {
    /// `void`.
    Void,
    /// `_Bool`.
    Bool,
    /// An integer; a plain `char` has a sign.
    Integer {
        /// Its rank.
        rank: Rank,
        /// Whether it has a sign.
        signed: bool,
    },
}

/// The type words of a declaration (C11 6.7.2).
#[derive(Drop)]
#[cycle(tree)]
pub enum TypeSpec {
    /// Keywords alone.
    Basic(BasicType),
    /// The name of a typedef (C11 6.7.8).
    Named(Text),
    /// A struct (C11 6.7.2.1).
    Struct {
        /// Its tag with its place, where it has one.
        name: Option<Identifier>,
        /// Its fields, where braces give them.
        fields: Option<List<FieldDecl>>,
    },
    /// An enum (C11 6.7.2.2).
    Enum {
        /// Its tag with its place, where it has one.
        name: Option<Identifier>,
        /// Its constants, where braces give them.
        values: Option<List<Enumerator>>,
    },
    /// `typeof` of an expression. C11 has none.
    OfExpr(Boxed<Expr>),
    /// `typeof` of a type. C11 has none.
    OfType(Boxed<TypeName>),
}

/// A declaration of fields (C11 6.7.2.1).
#[derive(Drop)]
#[cycle(tree)]
pub struct FieldDecl {
    /// The type before the names.
    pub spec: TypeSpec,
    /// The fields that it declares, in order.
    pub names: List<FieldName>,
}

/// A field with what stands around its name (C11 6.7.2.1).
#[derive(Drop)]
#[cycle(tree)]
pub struct FieldName {
    /// The place of its name, or of its `:` where it has none.
    pub place: Place,
    /// Its name; a field of bits may have none.
    pub name: Option<Text>,
    /// How many `*` stand before its name.
    pub stars: u32,
    /// The array sizes behind its name, outermost first. Those of a field are never left out.
    pub sizes: List<Option<Expr>>,
    /// How many bits it has, where it is a field of bits.
    pub bits: Option<Expr>,
}

/// A constant of an enum (C11 6.7.2.2).
#[derive(Drop)]
#[cycle(tree)]
pub struct Enumerator {
    /// The name's place.
    pub place: Place,
    /// Its name.
    pub name: Text,
    /// Its value, where it is given.
    pub value: Option<Expr>,
}
