//! The out-of-memory error.

use std::alloc::{AllocError, AllocFailed};
use thiserror::Error;

/// The error of an allocation that failed.
#[derive(Clone, Copy, Debug, PartialEq, Eq, Hash, Error)]
#[error("no memory")]
pub struct NoMemory;

impl From<AllocError> for NoMemory {
    fn from(_e: AllocError) -> NoMemory {
        NoMemory
    }
}

impl<T: Drop> From<AllocFailed<T>> for NoMemory {
    fn from(_e: AllocFailed<T>) -> NoMemory {
        NoMemory
    }
}
