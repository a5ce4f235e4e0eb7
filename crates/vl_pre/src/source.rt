//! The expansion of a source: one stack of the files that are open.
ghost use Rattle.std.specs.Prelude.{◌≡◌, ◌≤◌, ◌<◌, ◌+◌, ◌*◌, ◌++◌, ◌∷◌, [], ◌⊎◌, Some, Ok, Err, IfOk, OnOk, IfErr, OnErr, IsErr, IsSome, MatchResult, true, List, ℕ, length, string_bytes, if◌then◌else◌};
ghost use Rattle.xt_base.specs.Outside.{Held, bytes_of};
ghost use Rattle.vl_pre.specs.Breaks.{max_loads, max_includes};
ghost use Rattle.vl_pre.specs.Text.{begun};
ghost use Rattle.vl_pre.specs.Macros.{no_macros, with_defines};
ghost use Rattle.vl_pre.specs.Files.{Include, Reading, found, source_expansion};
ghost use Rattle.vl_pre.specs.Readings.{reading_seen, IsReading};
ghost use Rattle.vl_pre.specs.Faults.{IsText, IsFault, AskedInOrder, loads_of};
ghost use Rattle.vl_pre.specs.Inputs.{spot_seen, IsInput, input_rest};
ghost use Rattle.vl_pre.specs.Sources.{IsSource, outer_of, outer_rest, source_rest, included_rest, left_to_read};

use crate::defines::Defines;
use crate::faults::{PreFault, Spot};
use crate::inputs::{Included, Input, Next, step};
use crate::loads::load;
use crate::state::State;
use crate::text::Text;
use std::alloc::Global;
use std::mem;
use xt_base::{Files, Words};

/// How many includes may stand in one another.
const INCLUDES_LIMIT: usize = 16;

/// How many files may be loaded.
const LOADS_LIMIT: usize = 256;

/// A source that is read.
#[derive(Debug, Drop)]
struct Source {
    state: State,
    /// The file that is read.
    input: Input,
    /// The files that it stands in, the innermost last.
    outer: Vec<Input>,
}

/// Nothing is read yet: the macros that are defined before the first file, which was loaded.
fn begin_state(
    alloc: Global,
    name: &str,
    defines: &Defines,
    loads: Words,
) -> Result<State, PreFault>
    ensures ok { IfOk result (λ state. reading_seen state ≡ record { macros = with_defines no_macros defines.now; uses = 0; loads = loads; text = begun name.now }) }
    ensures err { IfErr result (λ fault. fault ≡ PreFault.Memory) }
{
    let Ok(table) = defines.table() else {
        return Err(PreFault::Memory);
    };
    Ok(State {
        table,
        uses: 0,
        loads,
        text: Text::new(alloc, name)?,
    })
}

/// Opens an included file, into which the text passes.
fn open<F: Files>(
    alloc: Global,
    files: &mut F,
    state: &mut State,
    name: String,
    spot: Spot,
) -> Result<Input, PreFault>
    requires fine { IsReading (reading_seen state.old) }
    ensures held { F.held files.new ≡ F.held files.old }
    ensures never_falls { F.faults files.old ≤ F.faults files.new }
    ensures counted { OnOk result (F.faults files.new ≡ F.faults files.old) }
    ensures input { IfOk result (λ input. IsInput input) }
    ensures loads { OnOk result (state.new.loads ≡ state.old.loads ++ string_bytes name ∷ []) }
    ensures names { OnOk result (length state.new.text.names ≡ length state.old.text.names + 1) }
    ensures bytes { OnOk result (state.new.text.bytes ≡ state.old.text.bytes) }
    ensures rest { (h : Held) (include : Include) → F.held files.old ≡ Some h → IfOk result (λ input.
        found include (string_bytes name) (spot_seen spot.entry) (bytes_of h (string_bytes name)) (record (reading_seen state.old) { loads = state.old.loads ++ string_bytes name ∷ [] })
        ≡ input_rest include input (reading_seen state.new)) }
    ensures fault { (include : Held → Include) → IfErr result (λ fault. IsFault fault (F.held files.old) (λ h.
        found (include h) (string_bytes name) (spot_seen spot.entry) (bytes_of h (string_bytes name)) (record (reading_seen state.old) { loads = state.old.loads ++ string_bytes name ∷ [] }))
        (F.faults files.old) (F.faults files.new)) }
    ensures asked { IsSome (F.held files.old) → (F.asked files.new ≡ F.asked files.old ++ string_bytes name ∷ []) ⊎ (IsErr result × (F.asked files.new ≡ F.asked files.old)) }
{
    let bytes = load(alloc, files, &mut state.loads, name.as_str(), spot)?;
    state.text.pass(name.as_str())?;
    Input::new(alloc, name, bytes.as_slice(), state.text.stretch())
}

impl Source {
    /// Begins the source in the file with a name.
    fn begin<F: Files>(
        alloc: Global,
        files: &mut F,
        name: &str,
        defines: &Defines,
    ) -> Result<Source, PreFault>
        ensures held { F.held files.new ≡ F.held files.old }
        ensures never_falls { F.faults files.old ≤ F.faults files.new }
        ensures counted { OnOk result (F.faults files.new ≡ F.faults files.old) }
        ensures source { IfOk result (λ source. IsSource source) }
        ensures loads { IfOk result (λ source. source.state.loads ≡ name.now ∷ []) }
        ensures rest { (h : Held) → F.held files.old ≡ Some h → IfOk result (λ source. source_expansion h name.now defines.now ≡ source_rest h source) }
        ensures fault { IfErr result (λ fault. IsFault fault (F.held files.old) (λ h. source_expansion h name.now defines.now) (F.faults files.old) (F.faults files.new)) }
        ensures asked { IsSome (F.held files.old) → (F.asked files.new ≡ F.asked files.old ++ name.now ∷ []) ⊎ (IsErr result × (F.asked files.new ≡ F.asked files.old)) }
    {
        let spot = Spot {
            stretch: 0,
            line: 0,
            name,
        };
        let mut loads = Words::new(alloc);
        let bytes = load(alloc, files, &mut loads, name, spot)?;
        let state = begin_state(alloc, name, defines, loads)?;
        let name = String::from_str(alloc, name)?;
        Ok(Source {
            state,
            input: Input::new(alloc, name, bytes.as_slice(), 0)?,
            outer: Vec::new(alloc),
        })
    }

    /// Includes a file in the one that is read.
    fn include<F: Files>(
        &mut self,
        alloc: Global,
        files: &mut F,
        included: Included,
    ) -> Result<(), PreFault>
        requires { IsSource self.old }
        ensures held { F.held files.new ≡ F.held files.old }
        ensures never_falls { F.faults files.old ≤ F.faults files.new }
        ensures counted { OnOk result (F.faults files.new ≡ F.faults files.old) }
        ensures source { OnOk result (IsSource self.new) }
        ensures less { OnOk result (left_to_read self.new ≤ left_to_read self.old) }
        ensures loads { OnOk result (self.new.state.loads ≡ self.old.state.loads ++ string_bytes included.name ∷ []) }
        ensures rest { (h : Held) → F.held files.old ≡ Some h → OnOk result (included_rest h self.old included ≡ source_rest h self.new) }
        ensures fault { IfErr result (λ fault. IsFault fault (F.held files.old) (λ h. included_rest h self.old included) (F.faults files.old) (F.faults files.new)) }
        ensures asked { IsSome (F.held files.old) → ((F.asked files.new ≡ F.asked files.old ++ string_bytes included.name ∷ []) × (length self.old.outer.items < max_includes) × (length self.old.state.loads < max_loads)) ⊎ (IsErr result × (F.asked files.new ≡ F.asked files.old)) }
    {
        let spot = Spot {
            stretch: self.state.text.stretch(),
            line: included.line,
            name: self.input.name.as_str(),
        };
        if self.outer.len() >= INCLUDES_LIMIT {
            return Err(spot.refuse(alloc, 11));
        }
        if self.state.loads.len() >= LOADS_LIMIT {
            return Err(spot.refuse(alloc, 80));
        }
        let input = open(alloc, files, &mut self.state, included.name, spot)?;
        let outer = mem::replace(&mut self.input, input);
        self.outer.push(outer)?;
        Ok(())
    }

    /// Ends the file that is read; true where the text comes back to another.
    fn leave(&mut self) -> Result<bool, PreFault>
        requires { IsSource self.old }
        ensures source { IfOk result (λ goes. goes ≡ true → IsSource self.new) }
        ensures less { IfOk result (λ goes. goes ≡ true → left_to_read self.new < left_to_read self.old) }
        ensures loads { OnOk result (self.new.state.loads ≡ self.old.state.loads) }
        ensures rest { (h : Held) → IfOk result (λ goes. outer_rest h (outer_of self.old) (reading_seen self.old.state) ≡ (if goes then source_rest h self.new else Ok (reading_seen self.new.state))) }
        ensures err { IfErr result (λ fault. fault ≡ PreFault.Memory) }
    {
        let Some(input) = self.outer.pop() else {
            return Ok(false);
        };
        self.state.text.pass(input.name.as_str())?;
        self.input = input;
        Ok(true)
    }

    /// Reads one piece of the file that is read; true where the source goes on.
    fn turn<F: Files>(&mut self, alloc: Global, files: &mut F) -> Result<bool, PreFault>
        requires { IsSource self.old }
        ensures held { F.held files.new ≡ F.held files.old }
        ensures never_falls { F.faults files.old ≤ F.faults files.new }
        ensures counted { OnOk result (F.faults files.new ≡ F.faults files.old) }
        ensures source { IfOk result (λ goes. goes ≡ true → IsSource self.new) }
        ensures less { IfOk result (λ goes. goes ≡ true → left_to_read self.new < left_to_read self.old) }
        ensures rest { (h : Held) → F.held files.old ≡ Some h → IfOk result (λ goes. source_rest h self.old ≡ (if goes then source_rest h self.new else Ok (reading_seen self.new.state))) }
        ensures fault { IfErr result (λ fault. IsFault fault (F.held files.old) (λ h. source_rest h self.old) (F.faults files.old) (F.faults files.new)) }
        ensures asked { (h : Held) (start : List (List ℕ)) → F.held files.old ≡ Some h → F.asked files.old ≡ start ++ self.old.state.loads
            → MatchResult result (λ _. F.asked files.new ≡ start ++ self.new.state.loads) (λ _. AskedInOrder start (F.asked files.new) (loads_of (source_rest h self.old))) }
    {
        match step(alloc, &mut self.state, &mut self.input)? {
            Next::Goes => Ok(true),
            Next::Ends => self.leave(),
            Next::Includes(included) => {
                self.include(alloc, files, included)?;
                Ok(true)
            }
        }
    }

    /// Reads the source to its end.
    fn finish<F: Files>(self, alloc: Global, files: &mut F) -> Result<Text, PreFault>
        requires { IsSource self }
        ensures held { F.held files.new ≡ F.held files.old }
        ensures never_falls { F.faults files.old ≤ F.faults files.new }
        ensures counted { OnOk result (F.faults files.new ≡ F.faults files.old) }
        ensures text { (h : Held) → F.held files.old ≡ Some h → IfOk result (λ text. IsText text (source_rest h self)) }
        ensures fault { IfErr result (λ fault. IsFault fault (F.held files.old) (λ h. source_rest h self) (F.faults files.old) (F.faults files.new)) }
        ensures asked { (h : Held) (start : List (List ℕ)) → F.held files.old ≡ Some h → F.asked files.old ≡ start ++ self.state.loads
            → AskedInOrder start (F.asked files.new) (loads_of (source_rest h self)) }
    {
        let mut source = self;
        loop {
            if !source.turn(alloc, files)? {
                return Ok(source.state.text);
            }
        }
    }
}

/// The expanded text of the file with a name, with macros that are defined before it.
///
/// Each of its bytes has its place. Refused carries the rule of 10 to 13 or 80 that is broken first in reading order, its
/// place, and the name of the file of that place. ReadFault comes exactly where the text comes to a file that isn't held,
/// and beside this only where a load failed, which is counted.
pub fn expand<F: Files>(
    alloc: Global,
    files: &mut F,
    name: &str,
    defines: &Defines,
) -> Result<Text, PreFault>
    ensures held { F.held files.new ≡ F.held files.old }
    ensures never_falls { F.faults files.old ≤ F.faults files.new }
    ensures text { (h : Held) → F.held files.old ≡ Some h → IfOk result (λ text. IsText text (source_expansion h name.now defines.now)) }
    ensures fault { IfErr result (λ fault. IsFault fault (F.held files.old) (λ h. source_expansion h name.now defines.now) (F.faults files.old) (F.faults files.new)) }
    ensures counted { OnOk result (F.faults files.new ≡ F.faults files.old) }
    ensures asked { (h : Held) → F.held files.old ≡ Some h → AskedInOrder (F.asked files.old) (F.asked files.new) (loads_of (source_expansion h name.now defines.now)) }
{
    Source::begin(alloc, files, name, defines)?.finish(alloc, files)
}
