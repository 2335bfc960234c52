use crate::no_memory::NoMemory;
use std::alloc::{AllocError, AllocFailed};

/// Why a call that hands out a graph stopped.
#[derive(Clone, Copy, Debug, PartialEq, Eq)]
pub enum Stop {
    /// It wanted more memory than the allocator gave.
    NoMemory,
    /// A graph passes the limits.
    Large,
}

impl From<NoMemory> for Stop {
    fn from(_error: NoMemory) -> Stop {
        Stop::NoMemory
    }
}

impl From<AllocError> for Stop {
    fn from(_error: AllocError) -> Stop {
        Stop::NoMemory
    }
}

impl<T: Drop> From<AllocFailed<T>> for Stop {
    fn from(_failed: AllocFailed<T>) -> Stop {
        Stop::NoMemory
    }
}
