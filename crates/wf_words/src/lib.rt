//! What all crates share: the words of the definitions, and the answer where memory runs out.
#![tactic(auto)]

use std::alloc::{AllocError, AllocFailed};

/// There was no memory for what a call makes. No call promises when this comes: it is always free.
#[derive(Clone, Copy, Debug, PartialEq, Eq)]
pub struct NoMemory;

impl From<AllocError> for NoMemory {
    fn from(_error: AllocError) -> NoMemory {
        NoMemory
    }
}

impl<T: Drop> From<AllocFailed<T>> for NoMemory {
    fn from(_failed: AllocFailed<T>) -> NoMemory {
        NoMemory
    }
}
