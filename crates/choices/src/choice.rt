use cbase::Text;

/// The greatest number of bytes that the contents of a block have.
pub const MOST_CONTENTS: usize = 65_536;

/// What a step of a run leaves open, and takes from outside.
#[derive(Drop)]
pub enum Choice {
    /// An allocation fails: it answers a null pointer (C11 7.22.3p1).
    None,
    /// A new block gets an address and contents: an allocation succeeds, or an object is made.
    Block {
        /// The address of the block's first byte. A run takes only bases of the form that its machine asks for; a text may give any.
        base: u64,
        /// What the bytes of the block are at first, at most [`MOST_CONTENTS`].
        bytes: Text,
    },
    /// An input is this number.
    Input(u64),
}
