//! Files and a stream in memory, whose loads and writes fail where a list says so.
ghost use Rattle.std.specs.Prelude.{◌≡◌, ◌≢◌, ◌+◌, ◌-◌, ◌≤◌, ◌<◌, ◌++◌, ◌∷◌, ◌↔◌, ◌⊎◌, [], List, Option, Some, None, ℕ, IfOk, OnOk, OnErr, IfSome, Contains, length, take, string_bytes, vec_len, vec_capacity, map, IsSome, IsNone, MatchOption};
ghost use Rattle.xt_base.specs.Outside.{Held, appended, bytes_of, HasFault, Gives, AppendsPrefix, IsAsked, IsAbsent, IsTooLong, after_one};

use crate::MAX_FILE;
use crate::outside::{Files, Load, Sink, Wrote};
use crate::refusals::NoMemory;
use std::alloc::Global;
use std::marker::Model;

/// A file that is held: its name and its bytes.
#[derive(Debug, Drop)]
struct HeldFile {
    name: String,
    bytes: Vec<u8>,
}

/// Files in memory. Contracts see what is held, what was asked for, and the counts.
#[derive(Debug, Drop)]
pub struct MemFiles {
    files: Vec<HeldFile>,
    asked: Vec<String>,
    loads: u64,
    fail: Vec<u64>,
    faults: u64,
}

impl Model for MemFiles {
    ghost use Rattle.std.specs.Prelude.{map, string_bytes};
    ghost use Rattle.xt_base.specs.Memory.{Folder};

    ghost Value = { Folder };

    ghost view = { λ m. record {
      held = map (λ f. (string_bytes f.name, f.bytes.items)) m.files.items;
      asked = map string_bytes m.asked.items;
      loads = m.loads;
      fail = m.fail.items;
      faults = m.faults;
    } };
}

impl MemFiles {
    /// No files; `fail` lists the numbers, from 0, of the loads that fail.
    pub fn new(alloc: Global, fail: &[u64]) -> Result<MemFiles, NoMemory>
        ensures { IfOk result (λ m. m ≡ record { held = []; asked = []; loads = 0; fail = fail.now; faults = 0 }) }
    {
        Ok(MemFiles {
            files: Vec::new(alloc),
            asked: Vec::new(alloc),
            loads: 0,
            fail: Vec::from_slice(alloc, fail)?,
            faults: 0,
        })
    }

    /// Holds the bytes under the name, in place of a file of that name before.
    pub fn put(&mut self, name: &str, bytes: &[u8]) -> Result<(), NoMemory>
        ensures ok { OnOk result (self.new ≡ record self.old { held = (name.now, bytes.now) ∷ self.old.held }) }
        ensures err { OnErr result (self.new ≡ self.old) }
    {
        let alloc = *self.files.allocator();
        let file = HeldFile {
            name: String::from_str(alloc, name)?,
            bytes: Vec::from_slice(alloc, bytes)?,
        };
        self.files.insert(0, file)?;
        Ok(())
    }

    /// How many loads failed, until the count stands at its last value.
    pub fn faults(&self) -> u64
        ensures { result ≡ self.now.faults }
    {
        self.faults
    }
}

/// The bytes of the first file of that name.
fn find<'a>(files: &'a [HeldFile], name: &str) -> Option<&'a [u8]>
    ensures { MatchOption result
        (bytes_of (map (λ f. (string_bytes f.name, f.bytes.items)) files.now) name.now ≡ None)
        (λ bytes. bytes_of (map (λ f. (string_bytes f.name, f.bytes.items)) files.now) name.now ≡ Some bytes.now) }
{
    for file in files {
        if file.name.as_str() == name {
            return Some(file.bytes.as_slice());
        }
    }
    None
}

/// Appends the bytes of a file that may be there.
fn give(found: Option<&[u8]>, into: &mut Vec<u8>) -> Load
    ensures loaded { result ≡ Load.Loaded → IfSome found.entry (λ bytes. (length bytes.now ≤ 268435456) × (into.new.items ≡ into.old.items ++ bytes.now)) × IsSome found.entry }
    ensures missing { result ≡ Load.Missing → IsNone found.entry }
    ensures too_long { result ≡ Load.TooLong → IfSome found.entry (λ bytes. 268435456 < length bytes.now) × IsSome found.entry }
    ensures never { result ≢ Load.Failed }
    ensures unchanged { result ≢ Load.Loaded → into.new.items ≡ into.old.items }
{
    match found {
        None => Load::Missing,
        Some(bytes) => {
            if bytes.len() > MAX_FILE {
                return Load::TooLong;
            }
            match into.extend_from_slice(bytes) {
                Ok(()) => Load::Loaded,
                Err(_) => Load::Memory,
            }
        }
    }
}

impl Files for MemFiles {
    ghost held = { λ m. Some m.held };

    ghost asked = { λ m. m.asked };

    ghost faults = { λ m. m.faults };

    fn load(&mut self, _alloc: Global, name: &str, into: &mut Vec<u8>) -> Load
        ensures held { self.new.held ≡ self.old.held }
        ensures asked { IsAsked (Some self.old.held) result self.old.asked name.now self.new.asked }
        ensures never_falls { self.old.faults ≤ self.new.faults }
        ensures fault { result ≡ Load.Failed → HasFault self.old.faults self.new.faults }
        ensures no_fault { result ≢ Load.Failed → self.new.faults ≡ self.old.faults }

        ensures loaded { result ≡ Load.Loaded → Gives (Some self.old.held) name.now into.old.items into.new.items }
        ensures missing { result ≡ Load.Missing → IsAbsent (Some self.old.held) name.now }
        ensures too_long { result ≡ Load.TooLong → IsTooLong (Some self.old.held) name.now }
        ensures unchanged { result ≢ Load.Loaded → into.new.items ≡ into.old.items }

        // It fails exactly where its number is listed, and each load counts, whatever it answers.
        ensures listed { result ≢ Load.Memory → (result ≡ Load.Failed) ↔ Contains self.old.fail self.old.loads }
        ensures counted { self.new.loads ≡ after_one self.old.loads }
        ensures fault_counted { result ≡ Load.Failed → self.new.faults ≡ after_one self.old.faults }
        ensures kept { self.new.fail ≡ self.old.fail }
    {
        let number = self.loads;
        self.loads = number.saturating_add(1);
        let Ok(word) = String::from_str(*self.files.allocator(), name) else {
            return Load::Memory;
        };
        if self.asked.push(word).is_err() {
            return Load::Memory;
        }
        if self.fail.contains(&number) {
            self.faults = self.faults.saturating_add(1);
            return Load::Failed;
        }
        give(find(&self.files, name), into)
    }
}

/// A stream in memory, which takes a number of bytes and no more.
#[derive(Debug, Drop)]
pub struct MemSink {
    bytes: Vec<u8>,
    capacity: usize,
    writes: u64,
    fail: Vec<u64>,
    faults: u64,
}

impl Model for MemSink {
    ghost use Rattle.std.specs.Prelude.{◌≤◌, vec_len, vec_capacity};
    ghost use Rattle.xt_base.specs.Memory.{Roll};

    ghost Value = { Roll };

    ghost view = { λ s. record {
      written = s.bytes.items;
      capacity = s.capacity;
      writes = s.writes;
      fail = s.fail.items;
      faults = s.faults;
    } };

    ghost invariant = { λ s. (vec_len s.bytes ≤ s.capacity) × (s.capacity ≤ vec_capacity s.bytes) };
}

impl MemSink {
    /// An empty stream that takes `capacity` bytes, for which room is reserved now.
    /// `fail` lists the numbers, from 0, of the writes that fail.
    pub fn new(alloc: Global, capacity: usize, fail: &[u64]) -> Result<MemSink, NoMemory>
        ensures { IfOk result (λ s. s ≡ record { written = []; capacity = capacity; writes = 0; fail = fail.now; faults = 0 }) }
    {
        Ok(MemSink {
            bytes: Vec::with_capacity(alloc, capacity)?,
            capacity,
            writes: 0,
            fail: Vec::from_slice(alloc, fail)?,
            faults: 0,
        })
    }

    /// All that was written.
    pub fn bytes(&self) -> &[u8]
        ensures { result.now ≡ self.now.written }
    {
        &self.bytes
    }

    /// How many writes failed, until the count stands at its last value.
    pub fn faults(&self) -> u64
        ensures { result ≡ self.now.faults }
    {
        self.faults
    }
}

/// Appends as much of the piece as fits into `capacity` bytes, for which there is room.
fn fill(bytes: &mut Vec<u8>, capacity: usize, piece: &[u8])
    requires within { vec_len bytes.old ≤ capacity }
    requires room { capacity ≤ vec_capacity bytes.old }
    ensures items { bytes.new.items ≡ bytes.old.items ++ take (capacity - vec_len bytes.old) piece.now }
    ensures len { vec_len bytes.new ≤ capacity }
    ensures capacity { vec_capacity bytes.old ≤ vec_capacity bytes.new }
{
    let fitting = piece.len().min(capacity - bytes.len());
    bytes.extend_from_slice(&piece[..fitting]).unwrap();
}

impl Sink for MemSink {
    ghost written = { λ s. Some s.written };

    ghost faults = { λ s. s.faults };

    fn write(&mut self, piece: &[u8]) -> Wrote
        ensures never_falls { self.old.faults ≤ self.new.faults }
        ensures all { result ≡ Wrote.All → Some self.new.written ≡ appended (Some self.old.written) piece.now }
        ensures no_fault { result ≡ Wrote.All → self.new.faults ≡ self.old.faults }
        ensures failed { result ≡ Wrote.Failed → AppendsPrefix (Some self.old.written) piece.now (Some self.new.written) }
        ensures fault { result ≡ Wrote.Failed → HasFault self.old.faults self.new.faults }

        // It fails exactly where its number is listed or the piece doesn't fit, and each write counts.
        // A listed write appends nothing, any other as much of the piece as fits.
        ensures listed { (result ≡ Wrote.Failed) ↔ (Contains self.old.fail self.old.writes ⊎ (self.old.capacity < length self.old.written + length piece.now)) }
        ensures nothing { Contains self.old.fail self.old.writes → self.new.written ≡ self.old.written }
        ensures fits { (Contains self.old.fail self.old.writes → ⊥) → self.new.written ≡ self.old.written ++ take (self.old.capacity - length self.old.written) piece.now }
        ensures counted { self.new.writes ≡ after_one self.old.writes }
        ensures fault_counted { result ≡ Wrote.Failed → self.new.faults ≡ after_one self.old.faults }
        ensures kept { (self.new.capacity ≡ self.old.capacity) × (self.new.fail ≡ self.old.fail) }
    {
        let number = self.writes;
        self.writes = number.saturating_add(1);
        if self.fail.contains(&number) {
            self.faults = self.faults.saturating_add(1);
            return Wrote::Failed;
        }
        let room = self.capacity - self.bytes.len();
        fill(&mut self.bytes, self.capacity, piece);
        if room < piece.len() {
            self.faults = self.faults.saturating_add(1);
            return Wrote::Failed;
        }
        Wrote::All
    }
}
