// Want of memory, the one error that comes without a stated cause.
use std::alloc::{AllocError, AllocFailed};
use thiserror::Error;

/// Memory ran out. What a call leaves that answers it, the clauses of that call say.
#[derive(Clone, Copy, Debug, PartialEq, Eq, Error)]
#[error("want of memory")]
pub struct Memory;

impl From<AllocError> for Memory {
    fn from(_error: AllocError) -> Memory {
        Memory
    }
}

impl<T: Drop> From<AllocFailed<T>> for Memory {
    fn from(_error: AllocFailed<T>) -> Memory {
        Memory
    }
}
