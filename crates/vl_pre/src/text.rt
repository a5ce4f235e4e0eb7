//! The expanded text, with the place of each byte.
ghost use Rattle.std.specs.Prelude.{◌≡◌, ◌<◌, ◌≤◌, ◌+◌, ◌-◌, ◌==◌, ℕ, length, SomeIndex, slice_get, slice_index_or, Some, OnOk, OnErr, IfOk, IsTrue, count_by};
ghost use Rattle.vl_pre.specs.Text.{place_of, line_after, begun, with_stretch, with_byte, with_lines};
ghost use Rattle.vl_pre.specs.Runs.{most, no_run, run_at, IsBegun};

use std::alloc::Global;
use std::marker::Model;
use xt_base::{NoMemory, Place};

/// Where a row of bytes begins whose lines follow from the first one's.
#[derive(Clone, Copy, Debug)]
struct Run {
    start: u32,
    file: u32,
    line: u32,
}

/// After this many bytes a new run begins in any case, so that a place is found without reading more.
const RUN_BYTES: u32 = 256;

/// The greatest number of bytes in a text, and of lines in a file.
pub const MAX_TEXT: usize = 2_147_483_647;

/// The expanded text: bytes, each with a stretch of the text and a line of its file.
///
/// A new stretch begins each time the text passes into a file or back to one. Contracts see the bytes, the places and the
/// names of the stretches as plain lists.
#[derive(Debug, Drop)]
pub struct Text {
    bytes: Vec<u8>,
    runs: Vec<Run>,
    names: Vec<String>,
    /// The line of the next byte, if it follows from the last one.
    next: u32,
}

impl Model for Text {
    ghost use Rattle.std.specs.Prelude.{map, string_bytes, length};
    ghost use Rattle.vl_pre.specs.Text.{Expanded};
    ghost use Rattle.vl_pre.specs.Runs.{places_in, AreRuns};

    ghost Value = { Expanded };

    ghost view = { λ t. record { bytes = t.bytes.items; places = places_in t.runs.items t.bytes.items (length t.bytes.items); names = map string_bytes t.names.items } };

    ghost invariant = { λ t. AreRuns t.runs.items t.bytes.items (length t.names.items) t.next };
}

/// How many line feeds there are.
fn line_feeds(bytes: &[u8]) -> usize
    ensures { result ≡ count_by (λ b. b == 10) bytes.now }
{
    bytes.iter().filter(|byte| **byte == b'\n').count()
}

/// The line of the byte after a byte.
pub(crate) fn next_line(byte: u8, line: u32) -> u32
    requires { line ≤ most }
    ensures { result ≡ line_after byte line }
{
    if byte == b'\n' { line + 1 } else { line }
}

/// The last run that begins at a byte or before it.
fn last_run(runs: &[Run], at: u32) -> Run
    requires ordered { (i j : ℕ) → i ≤ j → j < length runs.now → (slice_index_or runs.now i no_run).start ≤ (slice_index_or runs.now j no_run).start }
    requires first { (0 < length runs.now) × ((slice_index_or runs.now 0 no_run).start ≡ 0) }
    ensures run { result ≡ run_at runs.now at no_run }
    ensures below { result.start ≤ at }
    ensures found { SomeIndex runs.now (λ i. result ≡ slice_index_or runs.now i no_run) }
{
    let after = runs.partition_point(|run| run.start <= at);
    runs[after - 1]
}

/// Begins a run at the end, unless the last one leads to its place and isn't long.
fn begin_run(runs: &mut Vec<Run>, next: u32, run: Run) -> Result<(), NoMemory>
    ensures ok { OnOk result (IsBegun runs.old.items runs.new.items next run) }
    ensures err { OnErr result (runs.new.items ≡ runs.old.items) }
{
    if goes_on(runs.as_slice(), next, run) {
        return Ok(());
    }
    runs.push(run)?;
    Ok(())
}

/// Whether the last run leads to a run's place and isn't long.
fn goes_on(runs: &[Run], next: u32, run: Run) -> bool
    ensures some { IsTrue result → 0 < length runs.now }
    ensures line { IsTrue result → next ≡ run.line }
    ensures file { IsTrue result → (slice_index_or runs.now (length runs.now - 1) no_run).file ≡ run.file }
{
    if runs.is_empty() {
        return false;
    }
    let last = runs[runs.len() - 1];
    next == run.line && last.file == run.file && run.start < last.start.saturating_add(RUN_BYTES)
}

impl Text {
    /// No text yet, in the first stretch, of the file with a name.
    pub(crate) fn new(alloc: Global, name: &str) -> Result<Text, NoMemory>
        ensures { IfOk result (λ text. text ≡ begun name.now) }
    {
        let mut names = Vec::new(alloc);
        names.push(String::from_str(alloc, name)?)?;
        Ok(Text {
            bytes: Vec::new(alloc),
            runs: Vec::new(alloc),
            names,
            next: 1,
        })
    }

    /// The text of one file without directives: its bytes, each on its line from 1 on.
    pub fn plain(alloc: Global, name: &str, bytes: &[u8]) -> Result<Text, NoMemory>
        requires { length bytes.now < most }
        ensures { IfOk result (λ text. text ≡ with_lines (begun name.now) 1 bytes.now) }
    {
        let mut text = Text::new(alloc, name)?;
        let mut line = 1;
        for byte in bytes {
            text.push(*byte, line)?;
            line = next_line(*byte, line);
        }
        Ok(text)
    }

    /// The text passes into the file with a name, or back to it.
    pub(crate) fn pass(&mut self, name: &str) -> Result<(), NoMemory>
        requires { length self.old.names < most }
        ensures ok { OnOk result (self.new ≡ with_stretch self.old name.now) }
        ensures err { OnErr result (self.new ≡ self.old) }
    {
        let name = String::from_str(*self.names.allocator(), name)?;
        self.names.push(name)?;
        Ok(())
    }

    /// The stretch that the text is in.
    pub(crate) fn stretch(&self) -> u32
        requires { length self.now.names ≤ most }
        ensures { result ≡ length self.now.names - 1 }
    {
        (self.names.len() - 1) as u32
    }

    /// Adds a byte of the last stretch, on a line of its file. Without memory for it the text stays as it was.
    pub(crate) fn push(&mut self, byte: u8, line: u32) -> Result<(), NoMemory>
        requires room { length self.old.bytes < most }
        requires stretch { length self.old.names ≤ most }
        requires line { line ≤ most }
        ensures ok { OnOk result (self.new ≡ with_byte self.old byte line) }
        ensures err { OnErr result (self.new ≡ self.old) }
    {
        let run = Run {
            start: self.bytes.len() as u32,
            file: (self.names.len() - 1) as u32,
            line,
        };
        begin_run(&mut self.runs, self.next, run)?;
        self.next = line;
        self.bytes.push(byte)?;
        self.next = next_line(byte, line);
        Ok(())
    }

    /// The bytes of the text, at most `MAX_TEXT`; there is always a first stretch.
    pub fn bytes(&self) -> &[u8]
        ensures bytes { result.now ≡ self.now.bytes }
        ensures size { length result.now ≤ most }
        ensures first { 0 < length self.now.names }
    {
        let _names = &self.names;
        self.bytes.as_slice()
    }

    /// The stretch and line of the byte at a place of the text, in instance 0.
    pub fn place(&self, at: u32) -> Place
        requires { at < length self.now.bytes }
        ensures place { result ≡ place_of self.now at }
        ensures named { result.file < length self.now.names }
    {
        let run = last_run(self.runs.as_slice(), at);
        let feeds = line_feeds(&self.bytes.as_slice()[run.start as usize..at as usize]);
        Place {
            file: run.file,
            line: run.line + feeds as u32,
            instance: 0,
        }
    }

    /// The name under which the file of a stretch was loaded.
    pub fn file_name(&self, file: u32) -> &str
        requires { file < length self.now.names }
        ensures { slice_get self.now.names file ≡ Some result.now }
    {
        self.names[file as usize].as_str()
    }
}
