/// What stands in braces up to the `}`, part by part.
#[derive(Clone, Copy)]
pub enum Braced {
    /// Declarations of fields of a struct (C11 6.7.2.1).
    Fields,
    /// Declarations and statements of a block (C11 6.8.2).
    BlockItem,
}
