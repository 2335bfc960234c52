use cbase::Storage;
use typing::ctypes::Broken;

/// The head of a function by what is asked at its name, beside its parameters (C11 6.9.1).
#[derive(Clone, Copy)]
pub struct Head {
    /// Whether a body stands behind it.
    pub bodied: bool,
    /// The storage word of its declaration.
    pub storage: Storage,
    /// What is found of its words.
    pub found: Option<Broken>,
    /// The number of the type of its result.
    pub result: u32,
}
