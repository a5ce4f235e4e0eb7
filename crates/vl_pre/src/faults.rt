//! Why a source has no expanded text.
ghost use Rattle.std.specs.Prelude.{◌≡◌};
ghost use Rattle.vl_pre.specs.declared.faults.PreFault.TheVariants as faults;
ghost use Rattle.vl_pre.specs.Faults.{IsBrokenAt, IsStoppedAt};

use crate::stopped::Stopped;
use std::alloc::{AllocError, AllocFailed, Global};
use thiserror::Error;
use xt_base::{NoMemory, Place, Refusal, Rule};

/// Why a source has no expanded text.
#[derive(Debug, Drop, Error)]
pub enum PreFault {
    /// A rule is broken, with the name under which the file of its place was loaded.
    #[error("the source breaks a rule")]
    Refused(Refusal, String),
    /// A file that the source names isn't held, or a load failed.
    #[error("a file can't be read")]
    ReadFault,
    #[error("out of memory")]
    Memory,
}

impl From<NoMemory> for PreFault {
    ghost from_gives = { λ _ f. f ≡ faults.Memory };

    fn from(_error: NoMemory) -> PreFault {
        PreFault::Memory
    }
}

impl From<AllocError> for PreFault {
    ghost from_gives = { λ _ f. f ≡ faults.Memory };

    fn from(_error: AllocError) -> PreFault {
        PreFault::Memory
    }
}

impl<T: Drop> From<AllocFailed<T>> for PreFault {
    ghost from_gives = { λ _ f. f ≡ faults.Memory };

    fn from(_error: AllocFailed<T>) -> PreFault {
        PreFault::Memory
    }
}

/// A place in the source, with the name of its file.
#[derive(Clone, Copy, Debug)]
pub(crate) struct Spot<'a> {
    pub(crate) stretch: u32,
    pub(crate) line: u32,
    pub(crate) name: &'a str,
}

impl<'a> Spot<'a> {
    /// A rule that is broken here.
    pub(crate) fn refuse(self, alloc: Global, rule: u16) -> PreFault
        ensures { IsBrokenAt self.entry.stretch self.entry.line self.entry.name.now rule result }
    {
        let place = Place {
            file: self.stretch,
            line: self.line,
            instance: 0,
        };
        match String::from_str(alloc, self.name) {
            Ok(name) => PreFault::Refused(
                Refusal {
                    rule: Rule(rule),
                    place,
                },
                name,
            ),
            Err(_) => PreFault::Memory,
        }
    }

    /// What stopped a part of the file here, at a line of its own.
    pub(crate) fn stopped(self, alloc: Global, stop: Stopped) -> PreFault
        ensures { IsStoppedAt self.entry.stretch self.entry.name.now stop result }
    {
        match stop {
            Stopped::Broken { rule, line } => Spot { line, ..self }.refuse(alloc, rule),
            Stopped::Memory => PreFault::Memory,
        }
    }
}
