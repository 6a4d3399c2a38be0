// Want of memory.

use std::alloc::{AllocError, AllocFailed};

/// An allocation was refused.
#[derive(Clone, Copy, Debug, PartialEq, Eq)]
pub struct NoMemory;

impl From<AllocError> for NoMemory {
    fn from(_error: AllocError) -> NoMemory {
        NoMemory
    }
}

impl<T: Drop> From<AllocFailed<T>> for NoMemory {
    fn from(_error: AllocFailed<T>) -> NoMemory {
        NoMemory
    }
}

impl From<svr_gate::NoMemory> for NoMemory {
    fn from(_error: svr_gate::NoMemory) -> NoMemory {
        NoMemory
    }
}

impl From<svr_shape::NoMemory> for NoMemory {
    fn from(_error: svr_shape::NoMemory) -> NoMemory {
        NoMemory
    }
}

impl From<svr_arith::NoMemory> for NoMemory {
    fn from(_error: svr_arith::NoMemory) -> NoMemory {
        NoMemory
    }
}
