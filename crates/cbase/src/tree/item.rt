use crate::list::List;
use crate::place::Place;
use crate::tree::decl::{Decl, Declared, Storage};
use crate::tree::spec::TypeSpec;
use crate::tree::stmt::Stmt;

/// An item of a file: an external declaration of C11 6.9.
#[derive(Drop)]
pub enum Item {
    /// A `;` alone, which C11 does not have.
    Empty,
    /// A declaration (C11 6.7).
    Declare(Decl),
    /// A function with its body (C11 6.9.1).
    Function {
        /// The type before its name.
        spec: TypeSpec,
        /// Its storage word.
        storage: Storage,
        /// Its name, with the parameters.
        head: Declared,
        /// The statements of its body.
        body: List<Stmt>,
        /// The place of the `}` at the end.
        close: Place,
    },
}

/// The items of a file, in order.
pub type Program = List<Item>;
