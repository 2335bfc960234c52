/// The class of a byte that is known to be the number 0.
pub const ZERO: u8 = 0;

/// The class of a byte that is known to be a number, and no part of a pointer.
pub const NUMBER: u8 = 1;

/// The class of a byte of which nothing is known.
pub const ANYTHING: u8 = 2;

/// How many bytes the longest plane has.
pub const MOST_BYTES: u32 = 65_536;

/// How many bytes a vector has.
pub(crate) const LANES: usize = 32;
