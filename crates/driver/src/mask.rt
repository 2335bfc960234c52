use cbase::List;
use cover::Cell;

/// Where graphs at a point hold constants.
#[derive(Drop)]
pub(crate) struct Mask {
    /// The point.
    pub(crate) point: u32,
    /// Where.
    pub(crate) cells: List<Cell>,
}

/// The masks of all points, each once.
#[derive(Drop)]
pub(crate) struct Masks {
    /// The masks in the order in which they came about.
    pub(crate) items: List<Mask>,
    /// For each point the number of its mask that came last, one more; 0 where there is none.
    pub(crate) newest: Vec<usize>,
    /// For each mask the number of the one before it at its point, one more; 0 where there is none.
    pub(crate) before: Vec<usize>,
}
