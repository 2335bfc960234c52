/// What a scalar holds: a number of at most 64 bits, or a pointer into a block.
#[derive(Clone, Copy, Debug, PartialEq, Eq)]
pub enum Word {
    /// A number. As a pointer it leads to no block; 0 is the null pointer (C11 6.3.2.3p3).
    Plain(u64),
    /// A pointer into a block (C11 6.2.5p20).
    To {
        /// The number of the block: its place in the memory, from 0.
        block: u32,
        /// Where in the block it leads, in bytes from its first one. It may lie outside the block.
        offset: i64,
    },
}
