use cbase::Place;
use typing::ctypes::Broken;

/// A parameter of a function that passes (C11 6.7.6.3), by what its function asks of it.
#[derive(Clone, Copy)]
pub struct Parameter {
    /// The number of its type, in which an array is a pointer to its items (C11 6.7.6.3p7).
    pub ctype: u32,
    /// The least of what is found of it at the name of the function.
    pub found: Option<Broken>,
    /// Where its name stands, where it has one.
    pub place: Option<Place>,
    /// Whether the list has its name before it (C11 6.7p3).
    pub again: bool,
    /// Whether its type is `void` (C11 6.7.6.3p4, p10).
    pub incomplete: bool,
}
