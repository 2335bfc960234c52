use typing::environment::{DeclaredType, Definition};

/// What a declaration outside of functions says of an object, with what those before it say (C11 6.9.2).
#[derive(Clone, Copy)]
pub(crate) struct Object {
    /// The type that this declaration gives it.
    pub(crate) given: DeclaredType,
    /// The type that it has by it and those that are visible (C11 6.2.7p4).
    pub(crate) ctype: DeclaredType,
    /// What the text had for it before.
    pub(crate) before: Definition,
    /// What this declaration adds.
    pub(crate) adds: Definition,
}
