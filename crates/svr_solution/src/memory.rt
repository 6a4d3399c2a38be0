// Want of memory.

use std::alloc::AllocError;

/// An allocation was refused.
#[derive(Clone, Copy, Debug, PartialEq, Eq)]
pub struct NoMemory;

impl From<AllocError> for NoMemory {
    fn from(_error: AllocError) -> NoMemory {
        NoMemory
    }
}

impl From<svr_typed::NoMemory> for NoMemory {
    fn from(_error: svr_typed::NoMemory) -> NoMemory {
        NoMemory
    }
}

impl From<svr_vector::NoMemory> for NoMemory {
    fn from(_error: svr_vector::NoMemory) -> NoMemory {
        NoMemory
    }
}
