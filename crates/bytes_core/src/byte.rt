/// One byte of an object (C11 6.2.6.1).
#[derive(Clone, Copy, Debug, PartialEq, Eq)]
pub enum Byte {
    /// A plain number.
    Num(u8),
    /// One of the eight bytes of a pointer.
    Part {
        /// The number of the block that the pointer leads to: its place in the memory, from 0.
        block: u32,
        /// Where in the block it leads, in bytes from its first one. It may lie outside the block.
        offset: i64,
        /// Which byte of the pointer it is, from 0, the lowest, to 7.
        k: u8,
    },
}
