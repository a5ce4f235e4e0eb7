//! Why a part of a file has no reading.
ghost use Rattle.std.specs.Prelude.{◌≡◌, IsErr, IfErr};
ghost use Rattle.vl_pre.specs.declared.stopped.Stopped.TheVariants as stops;

use std::alloc::{AllocError, AllocFailed};
use xt_base::NoMemory;

/// Why a part of a file has no reading.
#[derive(Clone, Copy, Debug, PartialEq, Eq)]
pub(crate) enum Stopped {
    /// A rule is broken, at a line of the file that is read.
    Broken { rule: u16, line: u32 },
    Memory,
}

impl From<NoMemory> for Stopped {
    ghost from_gives = { λ _ s. s ≡ stops.Memory };

    fn from(_error: NoMemory) -> Stopped {
        Stopped::Memory
    }
}

impl From<AllocError> for Stopped {
    ghost from_gives = { λ _ s. s ≡ stops.Memory };

    fn from(_error: AllocError) -> Stopped {
        Stopped::Memory
    }
}

impl<T: Drop> From<AllocFailed<T>> for Stopped {
    ghost from_gives = { λ _ s. s ≡ stops.Memory };

    fn from(_error: AllocFailed<T>) -> Stopped {
        Stopped::Memory
    }
}
