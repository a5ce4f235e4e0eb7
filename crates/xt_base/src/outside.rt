//! Files and streams outside the program, as traits over what they hold and how often they failed.
ghost use Rattle.std.specs.Prelude.{◌≡◌, ◌≢◌, ◌≤◌, ◌<◌, ◌++◌, ◌∷◌, [], List, Option, ℕ};
ghost use Rattle.xt_base.specs.Outside.{Held, appended, bytes_of, HasFault, Gives, AppendsPrefix, IsAsked, IsAbsent, IsTooLong};

use std::alloc::Global;

/// How a load ended.
#[derive(Clone, Copy, Debug, PartialEq, Eq)]
pub enum Load {
    Loaded,
    Missing,
    Failed,
    TooLong,
    Memory,
}

/// Files by name.
///
/// What they hold may be told or not: for files of the system nothing is told of their content.
pub trait Files {
    /// The bytes under each name, where told.
    ghost held: { Self → Option Held };

    /// The names that were asked for, oldest first, where `held` is told.
    ghost asked: { Self → List (List ℕ) };

    /// How many faults were counted: a number that never falls.
    ghost faults: { Self → ℕ };

    /// Appends the bytes of the named file to `into`.
    ///
    /// A file of more than `MAX_FILE` bytes is too long. After any other answer than Loaded, `into` is as before.
    fn load(&mut self, alloc: Global, name: &str, into: &mut Vec<u8>) -> Load
        ensures held { held self.new ≡ held self.old }
        ensures asked { IsAsked (held self.old) result (asked self.old) name.now (asked self.new) }
        ensures never_falls { faults self.old ≤ faults self.new }
        ensures fault { result ≡ Load.Failed → HasFault (faults self.old) (faults self.new) }
        ensures no_fault { result ≢ Load.Failed → faults self.new ≡ faults self.old }

        ensures loaded { result ≡ Load.Loaded → Gives (held self.old) name.now into.old.items into.new.items }
        ensures missing { result ≡ Load.Missing → IsAbsent (held self.old) name.now }
        ensures too_long { result ≡ Load.TooLong → IsTooLong (held self.old) name.now }
        ensures unchanged { result ≢ Load.Loaded → into.new.items ≡ into.old.items };
}

/// How a write ended.
#[derive(Clone, Copy, Debug, PartialEq, Eq)]
pub enum Wrote {
    All,
    Failed,
}

/// A stream that takes bytes.
pub trait Sink {
    /// All bytes that were written, where told.
    ghost written: { Self → Option (List ℕ) };

    /// How many faults were counted: a number that never falls.
    ghost faults: { Self → ℕ };

    /// Appends the piece, or counts a fault and appends a prefix of it. It takes no memory.
    fn write(&mut self, piece: &[u8]) -> Wrote
        ensures never_falls { faults self.old ≤ faults self.new }
        ensures all { result ≡ Wrote.All → written self.new ≡ appended (written self.old) piece.now }
        ensures no_fault { result ≡ Wrote.All → faults self.new ≡ faults self.old }
        ensures failed { result ≡ Wrote.Failed → AppendsPrefix (written self.old) piece.now (written self.new) }
        ensures fault { result ≡ Wrote.Failed → HasFault (faults self.old) (faults self.new) };
}
