//! The real files and streams: a few lines over std's, which tell nothing of what they hold.
ghost use Rattle.std.specs.Prelude.{◌≡◌, ◌≢◌, ◌+◌, ◌≤◌, ◌<◌, ◌++◌, ◌⊎◌, [], List, Option, Some, None, ℕ, length};
ghost use Rattle.xt_base.specs.Outside.{HasFault, Gives};

use crate::MAX_FILE;
use crate::outside::{Files, Load, Sink, Wrote};
use std::alloc::{AllocError, Global};
use std::fs;
use std::io::Read;

/// How many bytes one read asks for.
const READ_SIZE: usize = 65_536;

/// The files of the system, by names as written, from the working folder.
///
/// A file that can't be opened or read is a fault. Nothing is told of what a file holds.
#[derive(Debug, Drop)]
pub struct HostFiles {
    rt: HostRuntime,
    faults: u64,
}

impl HostFiles {
    /// The files of the system, with no fault so far.
    pub fn new(rt: HostRuntime) -> HostFiles
        ensures { result.faults ≡ 0 }
    {
        HostFiles { rt, faults: 0 }
    }

    /// How many loads failed, until the count stands at its last value.
    pub fn faults(&self) -> u64
        ensures { result ≡ self.now.faults }
    {
        self.faults
    }
}

/// A buffer for one read.
fn read_buffer(alloc: Global) -> Result<Vec<u8>, AllocError> {
    vec![in alloc; 0u8; READ_SIZE]
}

/// Appends what the reader has left, up to the greatest length of a file.
///
/// Each turn but the last takes at least one byte, so that length bounds the turns.
fn read_all<R: Read>(alloc: Global, reader: &mut R, into: &mut Vec<u8>) -> Load
    ensures never { result ≢ Load.Missing }
    ensures appends { Gives None [] into.old.items into.new.items }
{
    let Ok(mut buffer) = read_buffer(alloc) else {
        return Load::Memory;
    };
    let mut room = MAX_FILE;
    for _ in 0..=MAX_FILE {
        let Ok(count) = reader.read(&mut buffer) else {
            return Load::Failed;
        };
        if count == 0 {
            return Load::Loaded;
        }
        if count > room {
            return Load::TooLong;
        }
        if into.extend_from_slice(&buffer[..count]).is_err() {
            return Load::Memory;
        }
        room -= count;
    }
    Load::TooLong
}

impl Files for HostFiles {
    ghost held = { λ _. None };

    ghost asked = { λ _. [] };

    ghost faults = { λ f. f.faults };

    fn load(&mut self, alloc: Global, name: &str, into: &mut Vec<u8>) -> Load {
        let start = into.len();
        let answer = match fs::open(&self.rt, name) {
            Ok(mut file) => read_all(alloc, &mut file, into),
            Err(_) => Load::Failed,
        };
        if answer != Load::Loaded {
            into.truncate(start);
        }
        if answer == Load::Failed {
            self.faults = self.faults.saturating_add(1);
        }
        answer
    }
}

/// Which of the two output streams is meant.
#[derive(Clone, Copy, Debug, PartialEq, Eq)]
pub enum Stream {
    Output,
    Notes,
}

/// A standard stream. Nothing is told of what stands on it.
#[derive(Debug, Drop)]
pub struct HostSink {
    rt: HostRuntime,
    stream: Stream,
    faults: u64,
}

impl HostSink {
    /// The stream, with no fault so far.
    pub fn new(rt: HostRuntime, stream: Stream) -> HostSink
        ensures faults { result.faults ≡ 0 }
        ensures stream { result.stream ≡ stream }
    {
        HostSink {
            rt,
            stream,
            faults: 0,
        }
    }

    /// How many writes failed, until the count stands at its last value.
    pub fn faults(&self) -> u64
        ensures { result ≡ self.now.faults }
    {
        self.faults
    }

    /// Writes some of the piece, and says how much: nothing where the stream takes nothing.
    fn write_some(&self, piece: &[u8]) -> usize
        ensures { result ≤ length piece.now }
    {
        let taken = match self.stream {
            Stream::Output => self.rt.stdout().write_some(piece),
            Stream::Notes => self.rt.stderr().write_some(piece),
        };
        taken.unwrap_or(0)
    }
}

impl Sink for HostSink {
    ghost written = { λ _. None };

    ghost faults = { λ s. s.faults };

    fn write(&mut self, piece: &[u8]) -> Wrote {
        let mut rest = piece;
        for _ in 0..piece.len() {
            let taken = self.write_some(rest);
            if taken == 0 {
                break;
            }
            rest = &rest[taken..];
        }
        if rest.is_empty() {
            return Wrote::All;
        }
        self.faults = self.faults.saturating_add(1);
        Wrote::Failed
    }
}
