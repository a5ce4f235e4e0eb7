//! Runs the cases that stand as data over the public calls of the libraries.
//!
//! The file `files` lists the case files; each lies in a folder that is named after its call (`calls` lists them). A line
//! is printed for each case that fails, then one for each case file, and last the sum. It counts two cases more: that a file
//! that isn't there can't be read, and that the list can.
#![tactic(auto)]

mod calls;
mod designs;
mod evaluations;
mod machines;
mod names;
mod numbers;
mod operators;
mod programs;
mod steps;

use case_file::{Case, Stop, cases_of};
use std::alloc::Global;
use std::process::ExitCode;
use xt_base::{Files, HostFiles, HostSink, Load, Sink, Stream, Wrote};

/// How many cases passed, and how many failed.
#[derive(Clone, Copy, Debug)]
struct Tally {
    passed: u64,
    failed: u64,
}

impl Tally {
    const NONE: Tally = Tally {
        passed: 0,
        failed: 0,
    };

    fn count(&mut self, has_passed: bool) {
        if has_passed {
            self.passed = self.passed.saturating_add(1);
        } else {
            self.failed = self.failed.saturating_add(1);
        }
    }

    fn add(&mut self, other: Tally) {
        self.passed = self.passed.saturating_add(other.passed);
        self.failed = self.failed.saturating_add(other.failed);
    }
}

fn say(out: &mut HostSink, text: &[u8]) -> Result<(), Stop> {
    match out.write(text) {
        Wrote::All => Ok(()),
        Wrote::Failed => Err(Stop::Output),
    }
}

/// The bytes of a file, or None where it can't be read.
fn loaded(alloc: Global, files: &mut HostFiles, name: &str) -> Option<Vec<u8>> {
    let mut bytes = Vec::new(alloc);
    match files.load(alloc, name, &mut bytes) {
        Load::Loaded => Some(bytes),
        _ => None,
    }
}

/// Says what was wanted of a case and what came.
fn tell(alloc: Global, out: &mut HostSink, head: &str, text: &[u8]) -> Result<(), Stop> {
    let text = String::from_utf8_lossy(alloc, text)?;
    say(out, head.as_bytes())?;
    say(out, format!(in alloc; "{:?}\n", text.as_str())?.as_bytes())
}

/// Runs a case, and says whether it passed.
fn run_case(alloc: Global, out: &mut HostSink, path: &str, case: &Case) -> Result<bool, Stop> {
    let call = path.split_once('/').map_or(path, |parts| parts.0);
    let came = match calls::answer(alloc, call, case) {
        Ok(came) => came,
        Err(stop) => format!(in alloc; "{stop}")?,
    };
    let wanted = case.text("want").unwrap_or(b"a field `want`");
    if came.as_bytes() == wanted {
        return Ok(true);
    }
    say(
        out,
        format!(in alloc; "{path}:{} fails\n", case.line)?.as_bytes(),
    )?;
    tell(alloc, out, "  wanted ", wanted)?;
    tell(alloc, out, "  came   ", came.as_bytes())?;
    Ok(false)
}

/// Runs the cases of a file. One that can't be read, or has no case, counts as a failure.
fn run_file(
    alloc: Global,
    files: &mut HostFiles,
    out: &mut HostSink,
    path: &str,
) -> Result<Tally, Stop> {
    let mut tally = Tally::NONE;
    let bytes = loaded(alloc, files, path).unwrap_or(Vec::new(alloc));
    let cases = match str::from_utf8(bytes.as_slice()) {
        Ok(text) => cases_of(alloc, text)?,
        Err(_) => Vec::new(alloc),
    };
    for case in cases.as_slice() {
        tally.count(run_case(alloc, out, path, case)?);
    }
    if cases.is_empty() {
        tally.count(false);
    }
    let Tally { passed, failed } = tally;
    say(
        out,
        format!(in alloc; "{path}: {passed} passed, {failed} failed\n")?.as_bytes(),
    )?;
    Ok(tally)
}

/// Whether the load of a file that isn't there counts a fault.
fn counts_missing(alloc: Global, files: &mut HostFiles) -> bool {
    let before = files.faults();
    loaded(alloc, files, "none").is_none() && files.faults() > before
}

/// Runs the listed files, and says whether no case fails.
fn run(alloc: Global, files: &mut HostFiles, out: &mut HostSink) -> Result<bool, Stop> {
    let mut tally = Tally::NONE;
    tally.count(counts_missing(alloc, files));
    let list = loaded(alloc, files, "files");
    tally.count(list.is_some());
    let list = list.unwrap_or(Vec::new(alloc));
    for path in str::from_utf8(list.as_slice()).unwrap_or("").lines() {
        tally.add(run_file(alloc, files, out, path)?);
    }
    let Tally { passed, failed } = tally;
    say(
        out,
        format!(in alloc; "{passed} passed, {failed} failed\n")?.as_bytes(),
    )?;
    Ok(passed > 0 && failed == 0)
}

fn main(rt: HostRuntime) -> ExitCode {
    let mut files = HostFiles::new(rt);
    let mut out = HostSink::new(rt, Stream::Output);
    match run(rt.alloc(), &mut files, &mut out) {
        Ok(true) => ExitCode::SUCCESS,
        _ => ExitCode::FAILURE,
    }
}
