use crate::mask::Masks;
use crate::verdict::Warning;
use cbase::List;
use fold::Fold;
use trail::Entry;

/// What is known so far.
#[derive(Drop)]
pub(crate) struct Work {
    /// The entries in the order in which they came about.
    pub(crate) trail: List<Entry>,
    /// Where the graphs of kept entries hold constants.
    pub(crate) masks: Masks,
    /// For each slot the number of the kept entry in it that came last, one more; 0 where there is none.
    pub(crate) slots: Vec<usize>,
    /// For each kept entry the number of the kept one before it in its slot, one more; 0 where there is none.
    pub(crate) earlier: Vec<usize>,
    /// For each entry how many objects of its graph live.
    pub(crate) counts: Vec<u32>,
    /// How many entries are kept.
    pub(crate) kept: u32,
    /// The faults that were met.
    pub(crate) warnings: List<Warning>,
    /// The entry that would be kept beyond the budget.
    pub(crate) next: Option<Entry>,
}

/// What becomes of a graph that is looked up.
#[derive(Clone, Copy)]
pub(crate) enum Put {
    /// Its entry is in the trail, and it is kept or covered.
    Done,
    /// It would be kept beyond the budget.
    Full,
    /// Its entry is in the trail and not kept, since it stands at a loop head and another one is to be made of it.
    Open {
        /// In this way.
        change: Change,
    },
}

/// What is made of a graph at a loop head.
#[derive(Clone, Copy)]
pub(crate) enum Change {
    /// Constants beyond the limit are forgotten.
    Coarse,
    /// Two neighbours of a list become a segment.
    Fold {
        /// These.
        fold: Fold,
    },
}
