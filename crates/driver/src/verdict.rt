use cbase::{List, Place};
use trail::Entry;

/// What an analysis may take.
#[derive(Clone, Copy)]
pub struct Limits {
    /// How many graphs are kept at most, at least 1.
    pub budget: u32,
    /// Constants beyond plus or minus this number are forgotten at loop heads.
    pub int_limit: u32,
}

/// A fault that some memory meets of which a graph tells.
#[derive(Clone, Copy)]
pub struct Warning {
    /// The place of the edge.
    pub place: Place,
    /// The kind of fault.
    pub kind: u8,
    /// The number of the entry whose graph it is.
    pub entry: u32,
    /// The number of the edge.
    pub edge: u32,
    /// Whether a run meets it for certain.
    pub error: bool,
}

/// What an analysis comes to.
#[derive(Drop)]
pub enum Verdict {
    /// No run faults.
    Safe {
        /// How that is known.
        trail: List<Entry>,
    },
    /// Some graphs tell of faults.
    Warned {
        /// These.
        warnings: List<Warning>,
        /// How they came about.
        trail: List<Entry>,
        /// Whether all was followed.
        complete: bool,
        /// The entry that would be kept beyond the budget, where not.
        next: Option<Entry>,
    },
    /// The budget was too small to follow all, and no fault was met.
    Spent {
        /// What was followed.
        trail: List<Entry>,
        /// The entry that would be kept beyond the budget.
        next: Entry,
    },
    /// A graph is too large.
    Large {
        /// What was followed.
        trail: List<Entry>,
        /// The number of its entry, if it has one.
        entry: Option<u32>,
    },
    /// The graph calls a function of its own, which is not followed yet.
    NotYet {
        /// The place of the first call.
        place: Place,
    },
}
