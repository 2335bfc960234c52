use c_machine::Kind;

/// What a value of an initialiser sets: so many bytes behind the front of its object, as a value of that kind (C11 6.7.9).
#[derive(Clone, Copy)]
pub struct Store {
    /// How many bytes of the object stand before it.
    pub offset: u64,
    /// Its type.
    pub kind: Kind,
}
