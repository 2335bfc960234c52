/// What typing hands on of an object that a declaration makes.
#[derive(Clone, Copy)]
pub(crate) struct ObjectRow {
    /// How many tokens stand before its name.
    pub token: u32,
    /// The number of its type.
    pub ctype: u32,
    /// Whether it lives as long as the program runs (C11 6.2.4p3).
    pub fixed: bool,
    /// Whether its initialiser stands in braces (C11 6.7.9p19, p21).
    pub zeroed: bool,
}
