//! The commands of the program, and the words that ask for them.
ghost use Rattle.std.specs.Prelude.{◌≡◌, ◌&&◌, IfOk, MatchOption, Some, None, drop};
ghost use Rattle.std.specs.List.{list_all};
ghost use Rattle.xt_base.specs.Identifiers.{is_within};
ghost use Rattle.xt_top.specs.Command.{request_of, asked_by, define_of, defines_of, is_macro_name, is_macro_text, begins_comment, has_comment};

use std::alloc::Global;
use vl_pre::{Defines, is_directive};
use xt_base::{NoMemory, Words, is_word};

/// The greatest length of the text of a macro that the words define, in bytes.
const MAX_MACRO: usize = 256;

/// The words that name a source.
#[derive(Debug, Drop)]
pub struct SourceWords<'a> {
    pub file: &'a str,
    /// The module that is the top.
    pub top: &'a str,
    /// The clock of the processes.
    pub clock: &'a str,
    /// The macros that are defined before the source is read.
    pub defines: Defines,
}

/// What the program is asked to do.
#[derive(Debug, Drop)]
pub enum Command<'a> {
    /// Compile a source, and write the design.
    Compile(SourceWords<'a>),
}

impl<'a> Command<'a> {
    /// The command that the words ask for: None exactly where they have none of the shapes.
    pub fn of(alloc: Global, words: &'a Words) -> Result<Option<Command<'a>>, NoMemory>
        ensures { IfOk result (λ found. MatchOption found (request_of words.now ≡ None) (λ command. request_of words.now ≡ Some (asked_by command))) }
    {
        let (Some(word), Some(file)) = (words.get(0), words.get(1)) else {
            return Ok(None);
        };
        let (Some(top), Some(clock)) = (words.get(2), words.get(3)) else {
            return Ok(None);
        };
        if word != "compile" {
            return Ok(None);
        }
        match defines_of(alloc, words)? {
            Some(defines) => Ok(Some(Command::Compile(SourceWords {
                file,
                top,
                clock,
                defines,
            }))),
            None => Ok(None),
        }
    }
}

/// The macros that the words behind the fourth define; None where one of them defines none.
fn defines_of(alloc: Global, words: &Words) -> Result<Option<Defines>, NoMemory>
    ensures { IfOk result (λ found. MatchOption found (defines_of (drop 4 words.now) ≡ None) (λ defines. defines_of (drop 4 words.now) ≡ Some defines)) }
{
    let mut defines = Defines::new(alloc);
    for i in 4..words.len() {
        let Some(word) = words.get(i) else {
            return Ok(None);
        };
        let Some((name, text)) = define_of(word) else {
            return Ok(None);
        };
        defines.add(name, text)?;
    }
    Ok(Some(defines))
}

/// The name and the text of the macro that a word NAME=TEXT defines.
fn define_of(word: &str) -> Option<(&str, &str)>
    ensures { MatchOption result (define_of word.now ≡ None) (λ define. define_of word.now ≡ Some (define.0.now, define.1.now)) }
{
    match word.split_once('=') {
        Some((name, text)) if is_macro(name.as_bytes(), text.as_bytes()) => Some((name, text)),
        _ => None,
    }
}

/// Whether a macro can have the name and the text.
fn is_macro(name: &[u8], text: &[u8]) -> bool
    ensures { result ≡ (is_macro_name name.now && is_macro_text text.now) }
{
    is_macro_name(name) && is_macro_text(text)
}

/// Whether a name can be a macro's: a word that is no directive's.
fn is_macro_name(name: &[u8]) -> bool
    ensures { result ≡ is_macro_name name.now }
{
    is_word(name) && !is_directive(name)
}

/// Whether a macro can have the text: at most 256 printable bytes without comments.
fn is_macro_text(text: &[u8]) -> bool
    ensures { result ≡ is_macro_text text.now }
{
    text.len() <= MAX_MACRO && are_printable(text) && !has_comment(text)
}

fn are_printable(text: &[u8]) -> bool
    ensures { result ≡ list_all (is_within 32 126) text.now }
{
    text.iter().all(|byte| matches!(*byte, b' '..=b'~'))
}

/// Whether a comment begins in the text.
fn has_comment(text: &[u8]) -> bool
    ensures { result ≡ has_comment text.now }
{
    match text.split_first() {
        Some((first, rest)) => begins_comment(*first, rest) || has_comment(rest),
        None => false,
    }
}

/// Whether a byte begins a comment with those behind it.
fn begins_comment(byte: u8, behind: &[u8]) -> bool
    ensures { result ≡ begins_comment byte behind.now }
{
    match behind.first() {
        Some(next) => byte == b'/' && (*next == b'/' || *next == b'*'),
        None => false,
    }
}
