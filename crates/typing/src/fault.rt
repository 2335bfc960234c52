use crate::ctypes::Broken;
use cbase::Place;

/// What is broken in a text, with the place where it is.
#[derive(Clone, Copy)]
pub struct Fault {
    /// Where it stands.
    pub place: Place,
    /// What is broken there.
    pub broken: Broken,
}
