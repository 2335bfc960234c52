/// Whether a reader goes on.
#[derive(Clone, Copy)]
pub enum Status {
    /// What was read so far is read to its end, and more may follow.
    Going,
    /// What was written so far is a tree. A token goes on with it, and what follows that token does not.
    Stopped,
    /// Nothing of the kind begins there.
    Nothing,
}
