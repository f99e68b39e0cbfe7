//! The two answers that are no call's own choice: a device that failed, and want of memory.
use std::alloc::{AllocError, AllocFailed};

/// A call of a device failed. Its count of faults tells it from a call that gave up.
#[derive(Clone, Copy, Debug, PartialEq, Eq)]
pub struct Failed;

/// There was no memory for what was asked. The values that the call was lent are as they were.
#[derive(Clone, Copy, Debug, PartialEq, Eq)]
pub struct Memory;

impl From<AllocError> for Memory {
    fn from(_: AllocError) -> Self {
        Memory
    }
}

impl<T: Drop> From<AllocFailed<T>> for Memory {
    fn from(_: AllocFailed<T>) -> Self {
        Memory
    }
}
