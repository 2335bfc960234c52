use crate::list::List;
use crate::place::Place;
use crate::text::Text;
use crate::tree::expr::Expr;
use crate::tree::identifier::Identifier;
use crate::tree::init::Init;
use crate::tree::spec::TypeSpec;

/// The storage word of a declaration (C11 6.7.1).
#[derive(Clone, Copy, Debug, PartialEq, Eq)]
pub enum Storage {
    /// None.
    Plain,
    /// `typedef`.
    Typedef,
    /// `extern`.
    Extern,
    /// `static`.
    Static,
}

/// A declaration (C11 6.7).
#[derive(Drop)]
#[cycle(tree)]
pub struct Decl {
    /// Its storage word.
    pub storage: Storage,
    /// The type before the names.
    pub spec: TypeSpec,
    /// The names that it declares, in order.
    pub names: List<Declared>,
}

/// A declared name with what stands around it (C11 6.7.6).
#[derive(Drop)]
#[cycle(tree)]
pub struct Declared {
    /// The name's place.
    pub place: Place,
    /// The name.
    pub name: Text,
    /// How many `*` stand before it.
    pub stars: u32,
    /// The array sizes behind it, outermost first; none where brackets are empty.
    pub sizes: List<Option<Expr>>,
    /// The parameters, where it is a function.
    pub params: Option<List<Param>>,
    /// The initialiser, where there is one.
    pub init: Option<Init>,
}

/// A parameter of a function (C11 6.7.6.3).
#[derive(Drop)]
#[cycle(tree)]
pub struct Param {
    /// The type before its name.
    pub spec: TypeSpec,
    /// How many `*` stand before its name.
    pub stars: u32,
    /// Its name with its place, where it has one.
    pub name: Option<Identifier>,
    /// The array sizes behind its name, outermost first; none where brackets are empty.
    pub sizes: List<Option<Expr>>,
}

/// A type in a cast, in `sizeof`, in `typeof` or in `__builtin_offsetof` (C11 6.7.7).
#[derive(Drop)]
#[cycle(tree)]
pub struct TypeName {
    /// The type that it begins with.
    pub spec: TypeSpec,
    /// How many `*` stand behind that.
    pub stars: u32,
    /// The array sizes at its end, outermost first; none where brackets are empty.
    pub sizes: List<Option<Expr>>,
}
