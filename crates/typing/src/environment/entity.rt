use cbase::List;

/// The type that a declaration gives an object or a typedef.
#[derive(Clone, Copy, PartialEq, Eq)]
pub enum DeclaredType {
    /// The type of that number.
    Whole(u32),
    /// An array of items of the type of that number, whose size is not known (C11 6.7.6.2p4): it is incomplete, and has
    /// no number of its own.
    UnsizedArray(u32),
}

/// How long an object lives (C11 6.2.4), and whether it may be named.
#[derive(Clone, Copy, PartialEq, Eq)]
pub enum Lifetime {
    /// As long as its block runs (C11 6.2.4p5).
    Automatic,
    /// As long as the program runs (C11 6.2.4p3).
    Static,
    /// As long as `main` runs, of which it is a parameter: the body of `main` may not name it.
    MainParameter,
}

/// What an identifier stands for that is no tag, no member and no label (C11 6.2.3p1).
#[derive(Clone, Copy, PartialEq, Eq)]
pub enum Entity {
    /// An object.
    Object {
        /// Its type.
        ctype: DeclaredType,
        /// How many tokens stand before the name that declares it.
        token: u32,
        /// How long it lives.
        lifetime: Lifetime,
        /// Whether it needs no definition elsewhere, or the text has one (C11 6.9p5).
        defined: bool,
    },
    /// A type (C11 6.7.8).
    Typedef {
        /// The type.
        ctype: DeclaredType,
    },
    /// A constant of an enum, which is an int (C11 6.7.2.2p3).
    Enumerator {
        /// The lowest four bytes of its value.
        bits: u32,
    },
    /// A function.
    Function {
        /// The number of its signature.
        signature: u32,
        /// Whether the text has a body for it.
        defined: bool,
        /// Whether it is one of the functions that are built in.
        built_in: bool,
    },
}

/// What a function gives and takes (C11 6.7.6.3).
#[derive(Drop)]
pub struct Signature {
    /// The number of the type of its result.
    pub result: u32,
    /// The numbers of the types of its parameters, in order.
    pub parameters: List<u32>,
}

/// What the text so far has for what has linkage under a name.
#[derive(Clone, Copy, PartialEq, Eq)]
pub enum Definition {
    /// Declarations alone.
    NotDefined,
    /// A tentative definition (C11 6.9.2p2).
    Tentative,
    /// A body or an initialiser (C11 6.9p5).
    Defined,
}

/// What has linkage under a name: one object or function in the whole text (C11 6.2.2p2).
#[derive(Clone, Copy)]
pub struct Linked {
    /// The object or function, with the type that all its declarations so far give.
    pub entity: Entity,
    /// What the text so far has for it.
    pub definition: Definition,
}

/// What a scope says of a name that it declares.
#[derive(Clone, Copy)]
pub enum Binding {
    /// It stands for something that has no linkage (C11 6.2.2p6).
    Own(Entity),
    /// It stands for what has linkage under that name. Where that is an array of which no visible declaration gives the size (C11 6.2.7p4), with the
    /// number of the type of its items: its size is not known there, though another scope may have given it.
    WithLinkage(Option<u32>),
}

/// What a tag stands for (C11 6.7.2.3).
#[derive(Clone, Copy, PartialEq, Eq)]
pub enum Tag {
    /// A struct.
    Struct {
        /// Its number.
        number: u32,
        /// Whether its members are listed, from the `{` in front of them on (C11 6.7.2.3p4).
        listed: bool,
    },
    /// An enum, whose type is int.
    Enum {
        /// Whether its constants are listed already.
        listed: bool,
    },
}

/// How a tag stands in a text (C11 6.7.2.3).
#[derive(Clone, Copy)]
pub enum TagForm {
    /// As in `struct s;` and `struct s { .. }`, which declare it in the innermost scope (p6, p7).
    Declared,
    /// As in `struct s *p;`, which takes the one that is visible (p8, p9).
    Mentioned,
}
