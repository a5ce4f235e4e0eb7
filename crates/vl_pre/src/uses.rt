//! Uses of macros: their arguments, and the text that stands in their place.
ghost use Rattle.std.specs.Prelude.{◌≡◌, ◌<◌, ◌≤◌, ◌+◌, ◌++◌, ◌∷◌, [], ℕ, true, false, Some, None, Ok, Err, IfOk, OnOk, IfErr, MatchOption, map, length, drop, if◌then◌else◌};
ghost use Rattle.vl_pre.specs.Cursors.{left, seen, IsWithin};
ghost use Rattle.vl_pre.specs.Uses.{told, with_bytes, with_use, limited, brackets};
ghost use Rattle.vl_pre.specs.Expanding.{expansion_seen};
ghost use Rattle.vl_pre.specs.Breaks.{max_text};
ghost use Rattle.vl_pre.specs.Gives.{Gives, Stops, Tells};

use crate::pieces::{Cursor, Kind, PieceRef};
use crate::stopped::Stopped;
use std::alloc::Global;

/// The greatest length of a text, in bytes.
pub(crate) const TEXT_LIMIT: usize = 4_194_304;

/// How many uses may be expanded.
const USES_LIMIT: u32 = 65_536;

/// Where a text is expanded.
#[derive(Clone, Copy, Debug)]
pub(crate) struct Context {
    /// Whether it is text of the file itself.
    pub(crate) own: bool,
    /// The line of the outermost use.
    pub(crate) outermost: u32,
    /// How long the expansion may be, in bytes.
    pub(crate) room: usize,
}

/// The uses so far: those in whose expansion the text stands, and how many there were.
#[derive(Debug, Drop)]
pub(crate) struct Progress {
    pub(crate) forbidden: Vec<Vec<u8>>,
    pub(crate) uses: u32,
}

impl Progress {
    /// No use in whose expansion the text stands.
    pub(crate) fn new(alloc: Global, uses: u32) -> Progress
        ensures forbidden { result.forbidden.items ≡ [] }
        ensures uses { result.uses ≡ uses }
    {
        Progress {
            forbidden: Vec::new(alloc),
            uses,
        }
    }
}

/// An argument of a use: where it begins in the text, and the byte before which it ends.
#[derive(Clone, Copy, Debug)]
pub(crate) struct Argument {
    pub(crate) start: Cursor,
    pub(crate) end: usize,
}

impl Context {
    /// The line that is told of a backquote.
    pub(crate) fn told(self, line: u32) -> u32
        ensures { result ≡ told self line }
    {
        if self.own { line } else { self.outermost }
    }

    /// A rule that is broken at the outermost use.
    pub(crate) fn broken<T>(self, rule: u16) -> Result<T, Stopped>
        ensures { result ≡ Err (Stopped.Broken rule self.outermost) }
    {
        Err(Stopped::Broken {
            rule,
            line: self.outermost,
        })
    }

    /// Bytes come to an expansion if there is room.
    pub(crate) fn add(self, bytes: &mut Vec<u8>, more: &[u8]) -> Result<(), Stopped>
        ensures fits { OnOk result (length bytes.new.items ≤ self.room) }
        ensures exact { (uses : ℕ) → Gives (λ _. record { bytes = bytes.new.items; uses = uses }) result (with_bytes self more.now (record { bytes = bytes.old.items; uses = uses })) }
    {
        if bytes.len() + more.len() > self.room {
            return self.broken(80);
        }
        bytes.extend_from_slice(more)?;
        Ok(())
    }

    /// A use counts.
    pub(crate) fn count(self, line: u32, uses: u32) -> Result<u32, Stopped>
        ensures { Gives (λ n. n) result (with_use self line uses) }
    {
        if uses >= USES_LIMIT {
            return Err(Stopped::Broken {
                rule: 80,
                line: self.told(line),
            });
        }
        Ok(uses + 1)
    }
}

/// How many brackets are open behind a piece.
pub(crate) fn brackets(depth: usize, piece: &PieceRef) -> usize
    requires { depth < 18446744073709551615 }
    ensures depth { result ≡ brackets depth (seen piece.now) }
    ensures more { result ≤ depth + 1 }
{
    match piece.kind {
        Kind::Single(b'(' | b'[' | b'{') => depth + 1,
        Kind::Single(b')' | b']' | b'}') => depth.saturating_sub(1),
        _ => depth,
    }
}
