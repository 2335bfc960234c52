use cbase::Place;

/// What a step comes to.
#[derive(Clone, Copy, Debug, PartialEq, Eq)]
pub enum Outcome {
    /// It is done, and the run goes on.
    Went,
    /// It asks for a choice, and there is none left.
    Waits,
    /// The run is over, with no fault.
    Ended,
    /// The run is over with a fault.
    Faulted {
        /// The number of its kind.
        kind: u8,
        /// Its place.
        place: Place,
    },
    /// No program of C comes there.
    Stuck,
}
