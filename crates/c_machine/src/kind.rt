use crate::whole_type::WholeType;

/// A type by what an access and an operator ask of it (C11 6.2.5).
#[derive(Clone, Copy)]
pub enum Kind {
    /// Integers of a type that the data layouts have.
    Integer(WholeType),
    /// Pointers to items of so many bytes, where `void` counts as one byte.
    Pointer(u64),
    /// Arrays of items of so many bytes.
    Array(u64),
    /// Structs of so many bytes.
    Struct(u64),
    /// `void`.
    Void,
}
