// Want of memory.

use std::alloc::{AllocError, AllocFailed};

/// An allocation was refused, or there are more things than numbers of 32 bits count.
#[derive(Clone, Copy, Debug, PartialEq, Eq)]
pub struct NoMemory;

impl From<AllocError> for NoMemory {
    fn from(_error: AllocError) -> NoMemory {
        NoMemory
    }
}

impl<T: Drop> From<AllocFailed<T>> for NoMemory {
    fn from(_error: AllocFailed<T>) -> NoMemory {
        NoMemory
    }
}

impl From<svr_query::NoMemory> for NoMemory {
    fn from(_error: svr_query::NoMemory) -> NoMemory {
        NoMemory
    }
}

impl From<svr_soft::NoMemory> for NoMemory {
    fn from(_error: svr_soft::NoMemory) -> NoMemory {
        NoMemory
    }
}

impl From<svr_vector::NoMemory> for NoMemory {
    fn from(_error: svr_vector::NoMemory) -> NoMemory {
        NoMemory
    }
}
