/// What an expression is asked for that is worked out without a memory.
#[derive(Clone, Copy, Debug, PartialEq, Eq)]
pub enum Asked {
    /// Its value.
    Value,
    /// Its address.
    Place,
}
