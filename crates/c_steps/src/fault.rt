/// Memory that is lost.
pub(crate) const MEMORY_LOST: u8 = 7;

/// An allocated block that lives when main returns, where that is asked for.
pub(crate) const BLOCK_NEVER_FREED: u8 = 9;
