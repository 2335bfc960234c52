/// What stands between the brackets of an array in a type (C11 6.7.6.2).
#[derive(Clone, Copy)]
pub enum Size {
    /// A constant: that number of items, at least one.
    Counted(u64),
    /// What is no integer constant expression.
    NotConstant,
    /// Nothing.
    LeftOut,
}
