use crate::place::Place;
use crate::text::Text;

/// An identifier with its place (C11 6.4.2).
#[derive(Drop)]
pub struct Identifier {
    /// Where it stands.
    pub place: Place,
    /// The identifier.
    pub name: Text,
}
