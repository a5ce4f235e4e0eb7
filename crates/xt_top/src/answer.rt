//! The work: from the words of a command line, over files alone, to what is to be written or why not.
ghost use Rattle.std.specs.Prelude.{◌≡◌, ◌≤◌, ◌<◌, true, ℕ, List, Some, IfErr, IfOk, length};
ghost use Rattle.nt_core.specs.Text.{text_of};
ghost use Rattle.xt_compile.specs.Hardware.{IsHardwareOf};
ghost use Rattle.xt_compile.specs.declared.first.source.Source.{Source};
ghost use Rattle.xt_compile.specs.first.Flatten.{design_of};
ghost use Rattle.xt_compile.specs.first.Source.{IsSource, waits};
ghost use Rattle.xt_top.specs.Breaks.{not_of_form, without_wait};
ghost use Rattle.xt_top.specs.Command.{compile, request_of, source_asked};
ghost use Rattle.xt_top.specs.Ends.{LoadsInOrder, file_state};
ghost use Rattle.xt_top.specs.Loads.{loads_of};
ghost use Rattle.xt_top.specs.Sources.{Accepts, HasTree, IsFormOf};
ghost use Rattle.xt_top.specs.declared.answer.Stop.TheVariants as stops;
ghost use Rattle.xt_top.specs.inner.Works.{Finds, IsNamed, IsRefusal, IsStopOf};

use crate::command::{Command, SourceWords};
use crate::note::Note;
use nt_core::Netlist;
use std::alloc::Global;
use vl_lex::{Tokens, lex};
use vl_parse::parse;
use vl_pre::{PreFault, Text, expand};
use vl_tree::Tree;
use xt_base::{Fail, Files, NoMemory, Place, Refusal, Rule, Words};
use xt_compile::{FormError, Source, compile, read};

/// The source isn't of the form that is read today.
const OUT_OF_FORM: Rule = Rule(90);

/// An `always` has no clock wait.
const NO_WAIT: Rule = Rule(61);

/// The file as a whole.
const WHOLE_FILE: Place = Place {
    file: 0,
    line: 0,
    instance: 0,
};

/// What is to be written where a run is done.
#[derive(Debug, Drop)]
pub enum Answer {
    /// The text of a design.
    Design(Netlist),
}

/// Why there is no answer.
#[derive(Debug, Drop)]
pub enum Stop {
    /// The run isn't done, as the note says.
    Note(Note),
    /// Memory ran out.
    Memory,
}

impl From<NoMemory> for Stop {
    ghost from_gives = { λ _ stop. stop ≡ stops.Memory };

    fn from(_error: NoMemory) -> Stop {
        Stop::Memory
    }
}

impl From<PreFault> for Stop {
    ghost from_gives = { λ fault stop. IsStopOf fault stop };

    fn from(fault: PreFault) -> Stop {
        match fault {
            PreFault::Refused(refusal, file) => Stop::Note(Note::Refused {
                rule: refusal.rule,
                file,
                line: refusal.place.line,
            }),
            PreFault::ReadFault => Stop::Note(Note::ReadFault),
            PreFault::Memory => Stop::Memory,
        }
    }
}

/// The answer to words.
pub fn answer_of<F: Files>(alloc: Global, words: &Words, files: &mut F) -> Result<Answer, Stop>
    ensures finds { Finds words.now (F.held files.old) (F.faults files.old) (F.faults files.new) result }
    ensures loads { LoadsInOrder (loads_of (request_of words.now)) (file_state (F.held files.old) (F.asked files.old) (F.faults files.old)) (file_state (F.held files.new) (F.asked files.new) (F.faults files.new)) }
    ensures never_falls { F.faults files.old ≤ F.faults files.new }
{
    match Command::of(alloc, words) {
        Ok(Some(Command::Compile(source))) => compiled(alloc, &source, files),
        Ok(None) => Err(Stop::Note(Note::Usage)),
        Err(NoMemory) => Err(Stop::Memory),
    }
}

/// The answer to words that ask for a source to be compiled.
fn compiled<F: Files>(alloc: Global, source: &SourceWords, files: &mut F) -> Result<Answer, Stop>
    ensures finds { (words : List (List ℕ)) → request_of words ≡ Some (compile (source_asked source.now)) → Finds words (F.held files.old) (F.faults files.old) (F.faults files.new) result }
    ensures loads { LoadsInOrder (loads_of (Some (compile (source_asked source.now)))) (file_state (F.held files.old) (F.asked files.old) (F.faults files.old)) (file_state (F.held files.new) (F.asked files.new) (F.faults files.new)) }
    ensures never_falls { F.faults files.old ≤ F.faults files.new }
{
    let text = expand(alloc, files, source.file, &source.defines)?;
    match netlist(alloc, &text, source) {
        Ok(netlist) => Ok(Answer::Design(netlist)),
        Err(Fail::Refused(refusal)) => Err(refused(
            alloc,
            text.file_name(refusal.place.file),
            refusal,
        )),
        Err(Fail::Memory) => Err(Stop::Memory),
    }
}

/// The note of a rule that is broken in the file of a name.
fn refused(alloc: Global, file: &str, refusal: Refusal) -> Stop
    ensures { IsNamed refusal file.now result }
{
    match String::from_str(alloc, file) {
        Ok(file) => Stop::Note(Note::Refused {
            rule: refusal.rule,
            file,
            line: refusal.place.line,
        }),
        Err(_) => Stop::Memory,
    }
}

/// The netlist of an expanded text, or the rule that it breaks first.
fn netlist(alloc: Global, text: &Text, words: &SourceWords) -> Result<Netlist, Fail>
    ensures netlist { IfOk result (λ n. (source : Source) × Accepts text.now (source_asked words.now) source × IsHardwareOf (design_of source) (text_of n)) }
    ensures refusal { IfErr result (IsRefusal text.now (source_asked words.now)) }
{
    let tokens = lex(alloc, text)?;
    let tree = parse(alloc, text, &tokens)?;
    let source = source(alloc, text, &tokens, &tree, words)?;
    Ok(compile(alloc, &source)?)
}

/// The source of the form that a tree is, if its process waits.
fn source(
    alloc: Global,
    text: &Text,
    tokens: &Tokens,
    tree: &Tree,
    words: &SourceWords,
) -> Result<Source, Fail>
    requires { HasTree text.now tokens.now tree.now }
    ensures is_source { IfOk result IsSource }
    ensures form { IfOk result (IsFormOf text.now (source_asked words.now) tokens.now tree.now) }
    ensures waits { IfOk result (λ source. waits source ≡ true) }
    ensures refusal { IfErr result (IsRefusal text.now (source_asked words.now)) }
{
    let source = match read(alloc, text, tokens, tree, words.top, words.clock) {
        Ok(source) => source,
        Err(FormError::OutOfForm) => return Err(Fail::Refused(out_of_form(text))),
        Err(FormError::Memory) => return Err(Fail::Memory),
    };
    if source.waits() {
        Ok(source)
    } else {
        Err(Fail::Refused(no_wait(&source)))
    }
}

/// The text isn't of the form that is read.
fn out_of_form(text: &Text) -> Refusal
    ensures refusal { result ≡ not_of_form }
    ensures named { result.place.file < length text.now.names }
{
    let _bytes = text.bytes();
    Refusal {
        rule: OUT_OF_FORM,
        place: WHOLE_FILE,
    }
}

/// The process has no wait.
fn no_wait(source: &Source) -> Refusal
    ensures { result ≡ without_wait source.now }
{
    Refusal {
        rule: NO_WAIT,
        place: source.process,
    }
}
