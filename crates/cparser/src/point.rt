/// A place of a row that a reader may go back to.
#[derive(Clone, Copy)]
pub struct Point {
    /// How many tokens stand before it.
    pub at: usize,
    /// How many events were written up to it.
    pub events: usize,
}
