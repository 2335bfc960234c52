/// How many walks there are within a function.
#[derive(Clone, Copy, Debug, PartialEq, Eq)]
pub enum Walks {
    /// So many, at most 200,000.
    Number(u32),
    /// A cycle is reached.
    Cycle,
    /// There is no cycle that is reached, and there are more than 200,000.
    More,
}
