//! Runs of the program, over files and streams in memory.
use crate::designs::netlist;
use crate::machines::transcript;
use case_file::{Case, Stop, add_bytes, as_text, files, first_line, numbers};
use std::alloc::Global;
use xt_base::{MemSink, Words};
use xt_top::{Status, xtc};

/// What a stream takes where a case says nothing, in bytes.
const AMPLE: usize = 1_000_000;

/// The words of a command line: the texts of the fields `word`.
fn words(alloc: Global, case: &Case) -> Result<Words, Stop> {
    let mut words = Words::new(alloc);
    for field in case.fields.as_slice() {
        if field.word.as_str() == "word" {
            words.push(as_text(field.text.as_slice())?)?;
        }
    }
    Ok(words)
}

/// A stream: the numbers of a field are how many bytes it takes, and the writes that fail.
fn stream(alloc: Global, case: &Case, word: &str) -> Result<MemSink, Stop> {
    match numbers(alloc, case, word)?.as_slice() {
        [] => Ok(MemSink::new(alloc, AMPLE, &[])?),
        [capacity, writes @ ..] => Ok(MemSink::new(alloc, *capacity as usize, writes)?),
    }
}

fn name(status: Status) -> &'static str {
    match status {
        Status::Done => "done",
        Status::Memory => "memory",
        Status::Usage => "usage",
        Status::Refused => "refused",
        Status::BadDesign => "bad design",
        Status::BadRecord => "bad record",
        Status::Differs => "differs",
        Status::ReadFault => "read fault",
        Status::WriteFault => "write fault",
    }
}

/// Adds what a written design does, if the wanted text has lines for it behind its first one.
fn add_steps(alloc: Global, case: &Case, text: &[u8], came: &mut String) -> Result<(), Stop> {
    let (_, steps) = first_line(case.text("want")?);
    let Some(netlist) = netlist(alloc, text)? else {
        return Ok(came.push_str(", but no design")?);
    };
    if !steps.is_empty() {
        came.push('\n')?;
        let transcript = transcript(alloc, &netlist, as_text(steps)?)?;
        came.push_str(transcript.as_str())?;
    }
    Ok(())
}

/// Runs the program, and gives its status with the notes, what a written design does, or what else stands on the output,
/// and the faults of the files, the output and the notes where there are some.
pub fn ended(alloc: Global, case: &Case) -> Result<String, Stop> {
    let words = words(alloc, case)?;
    let mut files = files(alloc, case)?;
    let mut out = stream(alloc, case, "out")?;
    let mut notes = stream(alloc, case, "notes")?;
    let status = xtc(alloc, &words, &mut files, &mut out, &mut notes);
    let mut came = String::from_str(alloc, name(status))?;
    if !notes.bytes().is_empty() {
        came.push_str(": ")?;
        add_bytes(&mut came, notes.bytes())?;
    }
    if status == Status::Done {
        add_steps(alloc, case, out.bytes(), &mut came)?;
    } else if !out.bytes().is_empty() {
        came.push_str("\noutput: ")?;
        add_bytes(&mut came, out.bytes())?;
    }
    let faults = (files.faults(), out.faults(), notes.faults());
    if faults != (0, 0, 0) {
        write!(came, "\nfaults: {} {} {}", faults.0, faults.1, faults.2)?;
    }
    Ok(came)
}
