use typing::ctypes::Broken;

/// What a type name is (C11 6.7.7).
#[derive(Clone, Copy)]
pub struct NamedType {
    /// The number of the type. An array whose size is no constant, or is left out, is taken as one of one item: what holds it is refused.
    pub ctype: u32,
    /// The least of what is found at the expression that holds it.
    pub found: Option<Broken>,
}
