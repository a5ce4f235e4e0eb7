//! What every crate of the compiler speaks of: names, places, refusals, and the files and streams outside.
#![tactic(auto)]

mod finder;
mod host;
mod identifiers;
mod memory;
mod names;
mod outside;
mod refusals;
mod reserved;

pub use finder::{Finder, first_is_one, stands_before};
pub use host::{HostFiles, HostSink, Stream};
pub use identifiers::{begins_word, is_identifier, is_in_word, is_word};
pub use memory::{MemFiles, MemSink};
pub use names::{Name, Words};
pub use outside::{Files, Load, Sink, Wrote};
pub use refusals::{Fail, NoMemory, Place, Refusal, Rule};
pub use reserved::is_reserved;

/// A value that the host hands over or is handed: one reply item or one argument.
pub type Item = u64;

/// The greatest width of a value, in bits.
pub const MAX_WIDTH: u32 = 64;

/// The greatest length of a file that is loaded, in bytes.
pub const MAX_FILE: usize = 268_435_456;
