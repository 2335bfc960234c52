use cbase::{Storage, TypeSpec};

/// The words and brackets that a declaration begins with (C11 6.7).
///
/// The reader of `specs/Reader.antt` gives them; no code makes them.
#[derive(Drop)]
pub struct Specifiers {
    /// The storage class, `Plain` where none is named.
    pub storage: Storage,
    /// The type.
    pub spec: TypeSpec,
}
