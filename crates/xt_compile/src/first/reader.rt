//! The reader of the form: from the syntax tree of a source to its module.
ghost use Rattle.std.specs.Prelude.{◌≡◌, ◌<◌, ℕ, count_by, length, IfOk, IsTrue, MatchResult};
ghost use Rattle.nt_core.specs.Names.{is_pin_name};
ghost use Rattle.vl_tree.specs.Modules as modules;
ghost use Rattle.vl_lex.specs.Tokens.{AreTokens};
ghost use Rattle.vl_expr.specs.Terminals.{terminals_of};
ghost use Rattle.vl_lex.specs.Views.{spellings_of, places_of};
ghost use Rattle.xt_compile.specs.declared.first.source.Source.{Source};
ghost use Rattle.xt_compile.specs.declared.first.tokens.FormError.TheVariants as errors;
ghost use Rattle.xt_compile.specs.first.Source.{IsSource, is_wait};
ghost use Rattle.xt_compile.specs.first.Tree.{Gives, IsForm, opens, source_of, module_source, parts_source};

mod module;
mod ports;
mod process;

use crate::first::names::copy_of;
use crate::first::source::{Source, Step};
use crate::first::tokens::{FormError, Lexed};
use module::{Header, Process, header_of, only, process_of};
use nt_core::is_pin_name;
use ports::read_ports;
use process::read_steps;
use std::alloc::Global;
use vl_expr::terminals;
use vl_lex::Tokens;
use vl_pre::Text;
use vl_tree::{Module, Terminal, Tree};

/// The greatest number of tokens of a source.
const MAX_TOKENS: usize = 2_048;

/// The source that the tree of a text's tokens is, if it is one of the form with this module's name and this clock.
/// `OutOfForm` comes exactly where there is none; memory is free. It goes over the tokens once more, and asks first whether
/// there are too many of them.
pub fn read(
    alloc: Global,
    text: &Text,
    tokens: &Tokens,
    tree: &Tree,
    top: &str,
    clock: &str,
) -> Result<Source, FormError>
    requires tokens { AreTokens text.now.bytes tokens.now }
    requires tree { (depth : ℕ) × modules.IsSource (terminals_of text.now.bytes tokens.now) (spellings_of text.now.bytes tokens.now) depth tree.now }

    // What is answered is the source of the form that the tree is, and it is no other: a tree is one source at most.
    ensures form { IfOk result (IsForm (terminals_of text.now.bytes tokens.now) (spellings_of text.now.bytes tokens.now) (places_of text.now tokens.now) top.now clock.now tree.now) }
    ensures only { (source : Source) → IsForm (terminals_of text.now.bytes tokens.now) (spellings_of text.now.bytes tokens.now) (places_of text.now tokens.now) top.now clock.now tree.now source →
        MatchResult result (λ found. found ≡ source) (λ error. error ≡ errors.Memory) }
    ensures one { (s t : Source) → IsForm (terminals_of text.now.bytes tokens.now) (spellings_of text.now.bytes tokens.now) (places_of text.now tokens.now) top.now clock.now tree.now s →
        IsForm (terminals_of text.now.bytes tokens.now) (spellings_of text.now.bytes tokens.now) (places_of text.now tokens.now) top.now clock.now tree.now t → s ≡ t }
    ensures source { IfOk result IsSource }
    // The place of its process lies in a file of the text.
    ensures named { IfOk result (λ source. source.process.file < length text.now.names) }
{
    told(alloc, text, tokens, tree, top, clock)
}

/// What reading a text's tree gives.
fn told(
    alloc: Global,
    text: &Text,
    tokens: &Tokens,
    tree: &Tree,
    top: &str,
    clock: &str,
) -> Result<Source, FormError>
    requires { AreTokens text.now.bytes tokens.now }
    ensures source { Gives result (source_of (terminals_of text.now.bytes tokens.now) (spellings_of text.now.bytes tokens.now) (places_of text.now tokens.now) top.now clock.now tree.now) }
    ensures named { IfOk result (λ source. source.process.file < length text.now.names) }
{
    let clock = clock.as_bytes();
    if tokens.list().len() > MAX_TOKENS || !is_pin_name(clock) {
        return Err(FormError::OutOfForm);
    }
    let terminals = terminals(alloc, text, tokens)?;
    let lexed = Lexed::new(text, tokens.list());
    match only(tree.modules.as_slice()) {
        Some(parsed) => {
            let opened = opened(terminals.as_slice());
            read_module(alloc, &lexed, top.as_bytes(), clock, opened, parsed)
        }
        None => Err(FormError::OutOfForm),
    }
}

/// The number of opening parentheses among tokens.
fn opened(terminals: &[Terminal]) -> usize
    ensures { result ≡ count_by opens terminals.now }
{
    terminals
        .iter()
        .filter(|terminal| matches!(**terminal, Terminal::OpenParen))
        .count()
}

/// The source that a module is, with so many opening parentheses.
fn read_module(
    alloc: Global,
    lexed: &Lexed<'_>,
    top: &[u8],
    clock: &[u8],
    opened: usize,
    parsed: &Module,
) -> Result<Source, FormError>
    requires { IsTrue (is_pin_name clock.now) }
    ensures source { Gives result (module_source lexed.now.names lexed.now.places top.now clock.now opened parsed.now) }
    ensures named { IfOk result (λ source. source.process.file < lexed.now.stretches) }
{
    let Some(header) = header_of(lexed, top, clock, parsed) else {
        return Err(FormError::OutOfForm);
    };
    let Some(process) = process_of(lexed, parsed) else {
        return Err(FormError::OutOfForm);
    };
    read_parts(alloc, lexed, clock, opened, header, process)
}

/// The source with this header and this process.
fn read_parts(
    alloc: Global,
    lexed: &Lexed<'_>,
    clock: &[u8],
    opened: usize,
    header: Header<'_>,
    process: Process<'_>,
) -> Result<Source, FormError>
    requires { IsTrue (is_pin_name clock.now) }
    ensures source { Gives result (parts_source lexed.now.names lexed.now.places clock.now opened (header.entry.head, header.entry.clock, header.entry.behind.now) (process.entry.at, process.entry.block, process.entry.body.now)) }
    ensures named { IfOk result (λ source. source.process ≡ process.entry.at) }
{
    let ports = read_ports(alloc, lexed, clock, header.behind)?;
    let steps = read_steps(alloc, lexed, clock, &ports, process.body)?;
    if opened != 1 + waits(steps.as_slice()) {
        return Err(FormError::OutOfForm);
    }
    Ok(Source {
        head: header.head,
        clock: copy_of(alloc, clock)?,
        clock_place: header.clock,
        inputs: ports.inputs,
        outputs: ports.outputs,
        process: process.at,
        block: process.block,
        steps,
    })
}

/// The number of waits among steps.
fn waits(steps: &[Step]) -> usize
    ensures { result ≡ count_by is_wait steps.now }
{
    steps.iter().filter(|step| step.is_wait()).count()
}
