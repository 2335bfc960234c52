use c_machine::Object;

/// An object that lives as long as the program runs (C11 6.2.4p3).
#[derive(Clone, Copy)]
pub(crate) struct FixedObject {
    /// How many tokens stand before the name by whose declaration it is made.
    pub token: u32,
    /// The object, where its size is kept.
    pub object: Option<Object>,
}
