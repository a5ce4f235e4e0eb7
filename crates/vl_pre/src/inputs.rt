//! Files that are open: their cleaned text, how far it is read, and the groups that are open in it.
ghost use Rattle.std.specs.Prelude.{◌≡◌, ◌≢◌, ◌≤◌, ◌<◌, ◌-◌, ◌++◌, ◌∷◌, [], ◌⊎◌, Some, Ok, Err, IfOk, OnOk, IfErr, IsErr, IsSome, length, string_bytes};
ghost use Rattle.std.specs.Str.{IsAscii};
ghost use Rattle.xt_base.specs.Outside.{max_file};
ghost use Rattle.vl_pre.specs.Runs.{most};
ghost use Rattle.vl_pre.specs.Files.{Include, Reading, file_text, file_end, stretch_of};
ghost use Rattle.vl_pre.specs.Turning.{open_groups};
ghost use Rattle.vl_pre.specs.Readings.{reading_seen, IsReading};
ghost use Rattle.vl_pre.specs.Inputs.{IsInput, input_rest, IsOpened, IsEnded, IsNext};

use crate::clean::clean;
use crate::faults::{PreFault, Spot};
use crate::groups::Group;
use crate::pieces::{Cursor, PieceRef, next_piece};
use crate::state::State;
use crate::steps::file_step;
use crate::stopped::Stopped;
use std::alloc::Global;

/// A file that is open.
#[derive(Debug, Drop)]
pub(crate) struct Input {
    pub(crate) name: String,
    /// Its cleaned text.
    pub(crate) text: Vec<u8>,
    /// Where reading goes on.
    pub(crate) cursor: Cursor,
    /// The groups that are open in it, the innermost last.
    pub(crate) groups: Vec<Group>,
}

/// An `include`: its line, and the name of the file.
#[derive(Debug, Drop)]
pub(crate) struct Included {
    pub(crate) line: u32,
    pub(crate) name: String,
}

/// What the next piece of a file does.
#[derive(Debug, Drop)]
pub(crate) enum Next {
    /// Reading goes on behind it.
    Goes,
    /// There is none: the file ends.
    Ends,
    /// It includes a file.
    Includes(Included),
}

impl Input {
    /// A file of a name that was loaded, into which the text has passed.
    pub(crate) fn new(
        alloc: Global,
        name: String,
        bytes: &[u8],
        stretch: u32,
    ) -> Result<Input, PreFault>
        requires { length bytes.now ≤ max_file }
        ensures input { IfOk result (λ input. IsInput input) }
        ensures exact { (include : Include) (reading : Reading) → stretch_of reading ≡ stretch → IsOpened include reading result (file_text include (string_bytes name) bytes.now reading) }
    {
        match clean(alloc, bytes) {
            Ok(text) => Ok(Input {
                name,
                text,
                cursor: Cursor { at: 0, line: 1 },
                groups: Vec::new(alloc),
            }),
            Err(stop) => Err(Spot {
                stretch,
                line: 0,
                name: name.as_str(),
            }
            .stopped(alloc, stop)),
        }
    }

    /// The end of the file: no group may be open.
    fn end(&self, alloc: Global) -> Result<Next, PreFault>
        ensures { (reading : Reading) → IsEnded reading result (file_end (string_bytes self.now.name) (open_groups self.now.groups.items) reading) }
    {
        match self.groups.last() {
            None => Ok(Next::Ends),
            Some(group) => {
                let spot = Spot {
                    stretch: group.stretch,
                    line: group.line,
                    name: self.name.as_str(),
                };
                Err(spot.refuse(alloc, 11))
            }
        }
    }
}

/// An `include` of the file with a name.
fn include_of(alloc: Global, line: u32, name: &[u8]) -> Result<Included, PreFault>
    requires { IsAscii name.now }
    ensures ok { IfOk result (λ included. (included.line ≡ line) × (string_bytes included.name ≡ name.now)) }
    ensures err { IfErr result (λ fault. fault ≡ PreFault.Memory) }
{
    Ok(Included {
        line,
        name: String::from_str(alloc, text_of(name))?,
    })
}

/// ASCII bytes as text.
fn text_of(bytes: &[u8]) -> &str
    requires { IsAscii bytes.now }
    ensures { result.now ≡ bytes.now }
{
    std::str::from_utf8(bytes).unwrap()
}

/// Reads the next piece of a file, with what belongs to it.
pub(crate) fn step(alloc: Global, state: &mut State, input: &mut Input) -> Result<Next, PreFault>
    requires fine { IsReading (reading_seen state.old) }
    requires input { IsInput input.old }
    ensures fine { OnOk result (IsReading (reading_seen state.new)) }
    ensures input { OnOk result (IsInput input.new) }
    ensures loads { OnOk result (state.new.loads ≡ state.old.loads) }
    ensures names { OnOk result (state.new.text.names ≡ state.old.text.names) }
    ensures name { OnOk result (string_bytes input.new.name ≡ string_bytes input.old.name) }
    ensures text { OnOk result (input.new.text.items ≡ input.old.text.items) }
    ensures onward { OnOk result (input.old.cursor.at ≤ input.new.cursor.at) }
    ensures forward { IfOk result (λ next. next ≢ Next.Ends → input.old.cursor.at < input.new.cursor.at) }
    ensures exact { (include : Include) → IsNext include input.new (reading_seen state.new) result (input_rest include input.old (reading_seen state.old)) }
{
    let stretch = state.text.stretch();
    let Some(piece) = next_piece(input.text.as_slice(), &mut input.cursor) else {
        return input.end(alloc);
    };
    let include = match file_step(
        alloc,
        state,
        &mut input.groups,
        piece,
        input.text.as_slice(),
        &mut input.cursor,
    ) {
        Ok(include) => include,
        Err(stop) => {
            let spot = Spot {
                stretch,
                line: 0,
                name: input.name.as_str(),
            };
            return Err(spot.stopped(alloc, stop));
        }
    };
    match include {
        None => Ok(Next::Goes),
        Some(name) => Ok(Next::Includes(include_of(alloc, piece.line, name)?)),
    }
}
