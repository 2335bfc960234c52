use cbase::Place;

/// A fault at a token, which some run meets or may meet.
#[derive(Clone, Copy, Debug, PartialEq, Eq)]
pub struct Warning {
    /// That of the token at which the run meets it.
    pub place: Place,
    /// Its kind, from 1, a null pointer dereference, to 9, a block never freed; each has a printed text.
    pub kind: u8,
    /// Whether a run is known that meets it: it is printed as an error then, and else as a warning.
    pub error: bool,
}
