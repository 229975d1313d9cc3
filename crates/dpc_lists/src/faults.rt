//! Want of memory, as an answer in the place of a value.
use std::alloc::{AllocError, AllocFailed};

/// Want of memory.
#[derive(Clone, Copy, PartialEq, Eq, Debug)]
pub struct NoMemory;

impl From<AllocError> for NoMemory {
    fn from(_fault: AllocError) -> NoMemory {
        NoMemory
    }
}

impl<T: Drop> From<AllocFailed<T>> for NoMemory {
    fn from(_fault: AllocFailed<T>) -> NoMemory {
        NoMemory
    }
}
