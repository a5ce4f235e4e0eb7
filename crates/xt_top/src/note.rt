//! The one line that the program writes about a run that isn't done.
ghost use Rattle.std.specs.Prelude.{◌≡◌, ◌≤◌, ◌⊎◌};
ghost use Rattle.xt_base.specs.Outside.{appended, HasFault, AppendsPrefix};
ghost use Rattle.xt_top.specs.Ends.{stream};
ghost use Rattle.xt_top.specs.inner.Works.{Tells};
ghost use Rattle.xt_top.specs.Note.{line_of, status_of, refused_line, differs_line, joined};

use crate::status::Status;
use itoa::Buffer;
use xt_base::{Rule, Sink, Wrote};

/// Why a run isn't done.
#[derive(Debug, Drop)]
pub enum Note {
    /// The words are no command.
    Usage,
    /// The source breaks a rule, at a line of a file; line 0 stands for the file as a whole.
    Refused { rule: Rule, file: String, line: u32 },
    /// The design isn't well formed.
    BadDesign,
    /// The record isn't well formed.
    BadRecord,
    /// Two traces differ, first at this line, from 1.
    Differs(u64),
    /// A file isn't there or can't be read.
    ReadFault,
}

impl Note {
    /// Writes the note's line, and answers the status that it explains: WriteFault where the line couldn't be written.
    pub fn tell<S: Sink>(&self, notes: &mut S) -> Status
        ensures tells { Tells (status_of self.now) (line_of self.now) (stream (S.written notes.old) (S.faults notes.old)) (stream (S.written notes.new) (S.faults notes.new)) result }
        ensures never_falls { S.faults notes.old ≤ S.faults notes.new }
    {
        match self.write(notes) {
            Wrote::All => self.status(),
            Wrote::Failed => Status::WriteFault,
        }
    }

    fn status(&self) -> Status
        ensures { result ≡ status_of self.now }
    {
        match self {
            Note::Usage => Status::Usage,
            Note::Refused { .. } => Status::Refused,
            Note::BadDesign => Status::BadDesign,
            Note::BadRecord => Status::BadRecord,
            Note::Differs(_) => Status::Differs,
            Note::ReadFault => Status::ReadFault,
        }
    }

    fn write<S: Sink>(&self, notes: &mut S) -> Wrote
        ensures written { result ≡ Wrote.All → S.written notes.new ≡ appended (S.written notes.old) (line_of self.now) }
        ensures no_fault { result ≡ Wrote.All → S.faults notes.new ≡ S.faults notes.old }
        ensures cut { result ≡ Wrote.Failed → AppendsPrefix (S.written notes.old) (line_of self.now) (S.written notes.new) }
        ensures fault { result ≡ Wrote.Failed → HasFault (S.faults notes.old) (S.faults notes.new) }
        ensures never_falls { S.faults notes.old ≤ S.faults notes.new }
    {
        match self {
            Note::Usage => notes.write(b"usage\n"),
            Note::Refused { rule, file, line } => write_refused(
                rule.number(),
                file.as_str(),
                *line,
                notes,
            ),
            Note::BadDesign => notes.write(b"bad design\n"),
            Note::BadRecord => notes.write(b"bad record\n"),
            Note::Differs(line) => write_differs(*line, notes),
            Note::ReadFault => notes.write(b"read fault\n"),
        }
    }
}

fn write_refused<S: Sink>(rule: u16, file: &str, line: u32, notes: &mut S) -> Wrote
    ensures written { result ≡ Wrote.All → S.written notes.new ≡ appended (S.written notes.old) (refused_line rule file.now line) }
    ensures no_fault { result ≡ Wrote.All → S.faults notes.new ≡ S.faults notes.old }
    ensures cut { result ≡ Wrote.Failed → AppendsPrefix (S.written notes.old) (refused_line rule file.now line) (S.written notes.new) }
    ensures fault { result ≡ Wrote.Failed → HasFault (S.faults notes.old) (S.faults notes.new) }
    ensures never_falls { S.faults notes.old ≤ S.faults notes.new }
{
    let mut rule_digits = Buffer::new();
    let mut line_digits = Buffer::new();
    let rule = rule_digits.format(rule);
    let line = line_digits.format(line);
    write_pieces(
        &[
            b"refused ",
            rule.as_bytes(),
            b" ",
            file.as_bytes(),
            b" ",
            line.as_bytes(),
            b"\n",
        ],
        notes,
    )
}

fn write_differs<S: Sink>(line: u64, notes: &mut S) -> Wrote
    ensures written { result ≡ Wrote.All → S.written notes.new ≡ appended (S.written notes.old) (differs_line line) }
    ensures no_fault { result ≡ Wrote.All → S.faults notes.new ≡ S.faults notes.old }
    ensures cut { result ≡ Wrote.Failed → AppendsPrefix (S.written notes.old) (differs_line line) (S.written notes.new) }
    ensures fault { result ≡ Wrote.Failed → HasFault (S.faults notes.old) (S.faults notes.new) }
    ensures never_falls { S.faults notes.old ≤ S.faults notes.new }
{
    let mut digits = Buffer::new();
    let line = digits.format(line);
    write_pieces(&[b"differs ", line.as_bytes(), b"\n"], notes)
}

/// Writes the pieces one after the other, up to the first that fails.
fn write_pieces<S: Sink>(pieces: &[&[u8]], sink: &mut S) -> Wrote
    ensures written { result ≡ Wrote.All → S.written sink.new ≡ appended (S.written sink.old) (joined pieces.now) }
    ensures no_fault { result ≡ Wrote.All → S.faults sink.new ≡ S.faults sink.old }
    ensures cut { result ≡ Wrote.Failed → AppendsPrefix (S.written sink.old) (joined pieces.now) (S.written sink.new) }
    ensures fault { result ≡ Wrote.Failed → HasFault (S.faults sink.old) (S.faults sink.new) }
    ensures never_falls { S.faults sink.old ≤ S.faults sink.new }
{
    for piece in pieces {
        match sink.write(piece) {
            Wrote::All => {}
            Wrote::Failed => return Wrote::Failed,
        }
    }
    Wrote::All
}
