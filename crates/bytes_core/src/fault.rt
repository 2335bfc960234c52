//! The kinds of faults, by the numbers that reports print.

/// An access through a number below 4,096 (C11 6.5.3.2p4).
pub(crate) const NULL_POINTER_DEREFERENCE: u8 = 1;

/// An access to a live block outside its bytes (C11 6.5.6p8).
pub(crate) const ACCESS_OUTSIDE_OBJECT: u8 = 2;

/// An access to a dead block (C11 6.2.4p2).
pub(crate) const ACCESS_TO_DEAD_OBJECT: u8 = 3;

/// An access through another number.
pub(crate) const ACCESS_THROUGH_INVALID_ADDRESS: u8 = 4;

/// A free of the first byte of a dead heap block (C11 7.22.3.3p2).
pub(crate) const DOUBLE_FREE: u8 = 5;

/// A free of anything else that is not null and not the first byte of a live heap block (C11 7.22.3.3p2).
pub(crate) const INVALID_FREE: u8 = 6;

/// A copy of `memcpy` between ranges that share a byte (C11 7.24.2.1p2).
pub(crate) const OVERLAPPING_COPY: u8 = 8;
