use cbase::NoMemory;

/// Why a row has no parts.
#[derive(Clone, Copy)]
pub enum Fault {
    /// The line is no row.
    NoRow,
    /// More memory was wanted than there was.
    NoMemory,
}

impl From<NoMemory> for Fault {
    fn from(_error: NoMemory) -> Fault {
        Fault::NoMemory
    }
}
