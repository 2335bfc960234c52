//! Which names are declared at a place of a text, and what each stands for.
//!
//! It knows scopes, name spaces and linkage, and types, structs and signatures as numbers alone; nothing of expressions, of
//! the grammar or of texts.

mod around;
mod entity;
mod environment;
mod keeping;
mod kept;
pub mod laws;
mod linkage;
mod names;
mod scopes;

pub use entity::{
    Binding, DeclaredType, Definition, Entity, Lifetime, Linked, Signature, Tag, TagForm,
};
pub use environment::Environment;
pub use linkage::{Kind, Standing, has_linkage};
pub use names::Names;
pub use scopes::Scopes;
