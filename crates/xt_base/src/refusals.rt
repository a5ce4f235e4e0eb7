//! Places, rules, and the two ways in which a layer answers no.
ghost use Rattle.std.specs.Prelude.{◌≡◌};
ghost use Rattle.xt_base.specs.declared.refusals.NoMemory as no_memory;
ghost use Rattle.xt_base.specs.declared.refusals.Fail.TheVariants as fails;

use std::alloc::{AllocError, AllocFailed};
use thiserror::Error;

/// Memory ran out. It is the one answer that no clause ties to a cause.
#[derive(Clone, Copy, Debug, PartialEq, Eq, Error)]
#[error("out of memory")]
pub struct NoMemory;

/// The number of a rule of refusal, as it is printed.
#[derive(Clone, Copy, Debug, PartialEq, Eq)]
pub struct Rule(pub u16);

impl Rule {
    /// The number that is printed.
    pub fn number(self) -> u16
        ensures { result ≡ self.0 }
    {
        self.0
    }
}

/// A line of a stretch of the source, in an instance of a module.
#[derive(Clone, Copy, Debug, PartialEq, Eq)]
pub struct Place {
    /// The number of the stretch of the expanded text, from 0.
    pub file: u32,
    /// The line in that file, from 1; 0 stands for the file as a whole.
    pub line: u32,
    /// The number of the instance, from 0 for the top.
    pub instance: u32,
}

/// The rule that a source breaks first, and where.
#[derive(Clone, Copy, Debug, PartialEq, Eq)]
pub struct Refusal {
    pub rule: Rule,
    pub place: Place,
}

/// Why a layer gives no result.
#[derive(Clone, Copy, Debug, PartialEq, Eq, Error)]
pub enum Fail {
    #[error("the source breaks a rule")]
    Refused(Refusal),
    #[error("out of memory")]
    Memory,
}

impl From<AllocError> for NoMemory {
    fn from(_error: AllocError) -> NoMemory {
        NoMemory
    }
}

impl<T: Drop> From<AllocFailed<T>> for NoMemory {
    fn from(_error: AllocFailed<T>) -> NoMemory {
        NoMemory
    }
}

impl From<NoMemory> for Fail {
    ghost from_gives = { λ _ f. f ≡ fails.Memory };

    fn from(_error: NoMemory) -> Fail {
        Fail::Memory
    }
}

impl From<AllocError> for Fail {
    ghost from_gives = { λ _ f. f ≡ fails.Memory };

    fn from(_error: AllocError) -> Fail {
        Fail::Memory
    }
}

impl<T: Drop> From<AllocFailed<T>> for Fail {
    ghost from_gives = { λ _ f. f ≡ fails.Memory };

    fn from(_error: AllocFailed<T>) -> Fail {
        Fail::Memory
    }
}
