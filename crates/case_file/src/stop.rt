//! Why a case gives no answer.
use std::alloc::{AllocError, AllocFailed};
use thiserror::Error;
use xt_base::NoMemory;

/// Why a case gives no answer.
#[derive(Clone, Copy, Debug, PartialEq, Eq, Error)]
pub enum Stop {
    #[error("out of memory")]
    Memory,
    /// The case, or a file that it names, isn't written as its call asks.
    #[error("not a case of this call")]
    Malformed,
    /// A line couldn't be printed.
    #[error("the output takes nothing")]
    Output,
}

impl From<AllocError> for Stop {
    fn from(_error: AllocError) -> Stop {
        Stop::Memory
    }
}

impl<T: Drop> From<AllocFailed<T>> for Stop {
    fn from(_error: AllocFailed<T>) -> Stop {
        Stop::Memory
    }
}

impl From<NoMemory> for Stop {
    fn from(_error: NoMemory) -> Stop {
        Stop::Memory
    }
}
