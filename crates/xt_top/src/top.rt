//! The top call: from the words of a command line to what is written and the status.
ghost use Rattle.std.specs.Prelude.{◌≡◌, ◌≤◌};
ghost use Rattle.xt_top.specs.Ends.{IsRun, outside, file_state, stream};
ghost use Rattle.xt_top.specs.inner.Works.{Puts, PutsText, text_in};
ghost use Rattle.nt_core.specs.Parts.{Parts};
ghost use Rattle.nt_core.specs.Text.{text_of};

use crate::answer::{Answer, Stop, answer_of};
use crate::status::Status;
use nt_core::Netlist;
use nt_write::{WriteEnd, write};
use std::alloc::Global;
use xt_base::{Files, Sink, Words};

/// Does what the words ask for: loads the source from `files`, and writes the design to `out`, or to `notes` the line that
/// explains the status.
///
/// The contract is one relation, `IsRun`. For each status it says what stands on the streams, and for each cause that
/// words and files can tell which answer comes; `some_answer`, `one_answer` and `whole_answer` say what follows. Faults that
/// are counted give WriteFault and ReadFault. Memory alone is free: no clause says when it comes.
pub fn xtc<F: Files, S: Sink>(
    alloc: Global,
    words: &Words,
    files: &mut F,
    out: &mut S,
    notes: &mut S,
) -> Status
    ensures { IsRun words.now
        (outside (file_state (F.held files.old) (F.asked files.old) (F.faults files.old)) (stream (S.written out.old) (S.faults out.old)) (stream (S.written notes.old) (S.faults notes.old)))
        (outside (file_state (F.held files.new) (F.asked files.new) (F.faults files.new)) (stream (S.written out.new) (S.faults out.new)) (stream (S.written notes.new) (S.faults notes.new)))
        result }
{
    let answer = answer_of(alloc, words, files);
    put(alloc, answer, out, notes)
}

/// Writes what is to be written.
fn put<S: Sink>(alloc: Global, answer: Result<Answer, Stop>, out: &mut S, notes: &mut S) -> Status
    ensures puts { Puts answer (stream (S.written out.old) (S.faults out.old)) (stream (S.written out.new) (S.faults out.new)) (stream (S.written notes.old) (S.faults notes.old)) (stream (S.written notes.new) (S.faults notes.new)) result }
    ensures output_never_falls { S.faults out.old ≤ S.faults out.new }
    ensures notes_never_falls { S.faults notes.old ≤ S.faults notes.new }
{
    match answer {
        Ok(answer) => write_text(alloc, &answer, out),
        Err(Stop::Note(note)) => note.tell(notes),
        Err(Stop::Memory) => Status::Memory,
    }
}

/// Writes the text of an answer.
fn write_text<S: Sink>(alloc: Global, answer: &Answer, out: &mut S) -> Status
    ensures writes { PutsText (text_in answer.now) (stream (S.written out.old) (S.faults out.old)) (stream (S.written out.new) (S.faults out.new)) result }
    ensures never_falls { S.faults out.old ≤ S.faults out.new }
{
    match answer {
        Answer::Design(netlist) => write_design(alloc, netlist, out),
    }
}

/// Writes the text of a design.
fn write_design<S: Sink>(alloc: Global, netlist: &Netlist, out: &mut S) -> Status
    ensures writes { (n : Parts) → netlist.now ≡ n → PutsText (text_of n) (stream (S.written out.old) (S.faults out.old)) (stream (S.written out.new) (S.faults out.new)) result }
    ensures never_falls { S.faults out.old ≤ S.faults out.new }
{
    match write(alloc, netlist, out) {
        WriteEnd::Written => Status::Done,
        WriteEnd::WriteFault => Status::WriteFault,
        WriteEnd::Memory => Status::Memory,
    }
}
