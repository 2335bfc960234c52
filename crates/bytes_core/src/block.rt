use crate::byte::Byte;
use cbase::List;

/// How a block's storage ends (C11 6.2.4, 7.22.3).
#[derive(Clone, Copy, Debug, PartialEq, Eq)]
pub enum BlockKind {
    /// An object of static storage duration. It lives until the program ends.
    Static,
    /// An object of automatic storage duration. It lives until its scope is left.
    Local,
    /// An allocated object. It lives until it is freed.
    Heap,
}

/// A block of memory: an object of the program, or what an allocation gave.
#[derive(Drop)]
pub struct Block {
    /// The address of the first byte: a multiple of 16, and at least 16.
    pub base: u64,
    /// How its storage ends.
    pub kind: BlockKind,
    /// Whether it may be accessed (C11 6.2.4p2). A dead block keeps its number, and its addresses may be used again.
    pub live: bool,
    /// Its contents; the size in bytes is their number.
    pub bytes: List<Byte>,
}
