//! A compiler from timed Verilog processes to clocked designs.
#![tactic(auto)]

use std::env;
use std::io::ErrorKind;
use std::process::ExitCode;
use xt_base::{HostFiles, HostSink, NoMemory, Stream, Words};
use xt_top::{Status, xtc};

/// The words after the program's name. Words that are no text are no command, as no words are.
fn words(rt: HostRuntime) -> Result<Words, NoMemory> {
    let mut words = Words::new(rt.alloc());
    match env::args(&rt) {
        Ok(given) => {
            for word in given.skip(1) {
                words.push(word.as_str())?;
            }
            Ok(words)
        }
        Err(error) if error.kind() == ErrorKind::OutOfMemory => Err(NoMemory),
        Err(_) => Ok(words),
    }
}

fn main(rt: HostRuntime) -> ExitCode {
    let status = match words(rt) {
        Ok(words) => {
            let mut files = HostFiles::new(rt);
            let mut out = HostSink::new(rt, Stream::Output);
            let mut notes = HostSink::new(rt, Stream::Notes);
            xtc(rt.alloc(), &words, &mut files, &mut out, &mut notes)
        }
        Err(NoMemory) => Status::Memory,
    };
    ExitCode::from(status.number())
}
