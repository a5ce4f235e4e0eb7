//! Cleaning: a file without its comments.
ghost use Rattle.std.specs.Prelude.{◌≡◌, ◌<◌, ◌≤◌, ◌-◌, ◌∷◌, [], ℕ, List, Option, true, false, Some, None, Ok, OnOk, IfOk, IfErr, if◌then◌else◌, ◌++◌, length, slice_get};
ghost use Rattle.std.specs.Option.{option_to_list};
ghost use Rattle.vl_pre.specs.Signs.{is_allowed};
ghost use Rattle.vl_pre.specs.Clean.{clean_file, cleaned, begins};
ghost use Rattle.vl_pre.specs.Cleaning.{Cleans};
ghost use Rattle.vl_pre.specs.Runs.{most};
ghost use Rattle.vl_pre.specs.Gives.{Gives, Stops};

use crate::stopped::Stopped;
use std::alloc::Global;

/// Where in a file a byte stands.
#[derive(Clone, Copy, Debug, PartialEq, Eq)]
pub(crate) enum Within {
    Code,
    LineComment,
    /// A block comment, with the line on which it opens.
    BlockComment(u32),
    Quotes,
}

/// What a byte comes to: how many bytes it takes with it, what stays, and where the next byte stands.
#[derive(Clone, Copy, Debug)]
struct Step {
    more: bool,
    kept: Option<u8>,
    within: Within,
    line: u32,
}

impl Step {
    /// A sign of two bytes, for which a blank or nothing stays.
    fn sign(kept: Option<u8>, within: Within, line: u32) -> Step
        ensures { result ≡ record { more = true; kept = kept; within = within; line = line } }
    {
        Step {
            more: true,
            kept,
            within,
            line,
        }
    }

    /// A byte that stays.
    fn byte(byte: u8, within: Within, line: u32) -> Step
        ensures { result ≡ record { more = false; kept = Some byte; within = within; line = line } }
    {
        Step {
            more: false,
            kept: Some(byte),
            within,
            line,
        }
    }

    /// How many bytes it takes.
    fn size(&self) -> usize
        ensures { result ≡ (if self.now.more then 2 else 1) }
    {
        if self.more { 2 } else { 1 }
    }

    /// A byte of a comment.
    fn none(within: Within, line: u32) -> Step
        ensures { result ≡ record { more = false; kept = None; within = within; line = line } }
    {
        Step {
            more: false,
            kept: None,
            within,
            line,
        }
    }
}

/// Whether a byte may stand outside comments.
fn is_allowed(byte: u8) -> bool
    ensures { result ≡ is_allowed byte }
{
    matches!(byte, 9 | 10 | 12 | 13 | 32..=126)
}

/// Whether the bytes begin with this one.
fn begins(sign: u8, bytes: &[u8]) -> bool
    ensures { result ≡ begins sign bytes.now }
{
    bytes.first().is_some_and(|byte| *byte == sign)
}

/// The step of a byte outside comments and strings.
fn code_step(line: u32, byte: u8, rest: &[u8]) -> Result<Step, Stopped>
    requires { line < most }
    ensures { Cleans result line rest.now (cleaned Within.Code 0 line (byte ∷ rest.now)) }
{
    if byte == b'/' && begins(b'/', rest) {
        return Ok(Step::sign(None, Within::LineComment, line));
    }
    if byte == b'/' && begins(b'*', rest) {
        return Ok(Step::sign(Some(b' '), Within::BlockComment(line), line));
    }
    if byte == b'"' {
        return Ok(Step::byte(byte, Within::Quotes, line));
    }
    if byte == b'\n' {
        return Ok(Step::byte(byte, Within::Code, line + 1));
    }
    if is_allowed(byte) {
        return Ok(Step::byte(byte, Within::Code, line));
    }
    Err(Stopped::Broken { rule: 10, line })
}

/// The step of a byte in a line comment.
fn line_comment_step(line: u32, byte: u8, rest: &[u8]) -> Result<Step, Stopped>
    requires { line < most }
    ensures { Cleans result line rest.now (cleaned Within.LineComment 0 line (byte ∷ rest.now)) }
{
    if byte == b'\n' {
        return Ok(Step::byte(byte, Within::Code, line + 1));
    }
    Ok(Step::none(Within::LineComment, line))
}

/// The step of a byte in a block comment.
fn block_comment_step(opened: u32, line: u32, byte: u8, rest: &[u8]) -> Result<Step, Stopped>
    requires { line < most }
    ensures { Cleans result line rest.now (cleaned (Within.BlockComment opened) 0 line (byte ∷ rest.now)) }
{
    if byte == b'*' && begins(b'/', rest) {
        return Ok(Step::sign(None, Within::Code, line));
    }
    if byte == b'\n' {
        return Ok(Step::byte(byte, Within::BlockComment(opened), line + 1));
    }
    Ok(Step::none(Within::BlockComment(opened), line))
}

/// The step of a byte in a string.
fn quotes_step(line: u32, byte: u8, rest: &[u8]) -> Result<Step, Stopped>
    requires { line < most }
    ensures { Cleans result line rest.now (cleaned Within.Quotes 0 line (byte ∷ rest.now)) }
{
    if byte == b'"' {
        return Ok(Step::byte(byte, Within::Code, line));
    }
    if byte != b'\n' && is_allowed(byte) {
        return Ok(Step::byte(byte, Within::Quotes, line));
    }
    Err(Stopped::Broken { rule: 10, line })
}

/// The step of a byte.
fn next_step(within: Within, line: u32, byte: u8, rest: &[u8]) -> Result<Step, Stopped>
    requires { line < most }
    ensures { Cleans result line rest.now (cleaned within 0 line (byte ∷ rest.now)) }
{
    match within {
        Within::Code => code_step(line, byte, rest),
        Within::LineComment => line_comment_step(line, byte, rest),
        Within::BlockComment(opened) => block_comment_step(opened, line, byte, rest),
        Within::Quotes => quotes_step(line, byte, rest),
    }
}

/// Whether a file may end here.
fn end(within: Within, line: u32) -> Result<(), Stopped>
    ensures ok { OnOk result (cleaned within 0 line [] ≡ Ok []) }
    ensures err { IfErr result (λ stop. Stops stop (cleaned within 0 line [])) }
{
    match within {
        Within::Code | Within::LineComment => Ok(()),
        Within::BlockComment(opened) => Err(Stopped::Broken {
            rule: 10,
            line: opened,
        }),
        Within::Quotes => Err(Stopped::Broken { rule: 10, line }),
    }
}

/// Adds a byte that may stay.
fn keep(text: &mut Vec<u8>, kept: Option<u8>) -> Result<(), Stopped>
    ensures ok { OnOk result (text.new.items ≡ text.old.items ++ option_to_list kept) }
    ensures err { IfErr result (λ stop. stop ≡ Stopped.Memory) }
{
    match kept {
        Some(byte) => Ok(text.push(byte)?),
        None => Ok(()),
    }
}

/// A file without its comments, or the line of the first byte that breaks rule 10.
pub(crate) fn clean(alloc: Global, bytes: &[u8]) -> Result<Vec<u8>, Stopped>
    requires { length bytes.now < most }
    ensures exact { Gives (λ text. text.items) result (clean_file bytes.now) }
    ensures size { IfOk result (λ text. length text.items ≤ length bytes.now) }
{
    let mut text = Vec::with_capacity(alloc, bytes.len())?;
    let mut within = Within::Code;
    let mut line = 1;
    let mut at = 0;
    while at < bytes.len() {
        let step = next_step(within, line, bytes[at], &bytes[at + 1..])?;
        keep(&mut text, step.kept)?;
        within = step.within;
        line = step.line;
        at += step.size();
    }
    end(within, line)?;
    Ok(text)
}
