//! Macros: what they are, and how they are defined.
ghost use Rattle.std.specs.Prelude.{◌≡◌, ◌<◌, ◌≤◌, ◌+◌, ◌++◌, ◌∷◌, [], ℕ, true, false, Some, None, Ok, Err, IfOk, OnOk, IfErr, MatchOption, MatchResult, map, length, drop, if◌then◌else◌};
ghost use Rattle.std.specs.List.{prefix_len, list_any};
ghost use Rattle.vl_pre.specs.Cursors.{left, seen, passes, IsWithin};
ghost use Rattle.vl_pre.specs.Pieces.{is_space};
ghost use Rattle.vl_pre.specs.Macros.{is_among, line_from, formals_turn, list_from, heading, macro_text, macro_name, definition};
ghost use Rattle.vl_pre.specs.Lines.{in_line, GoesOn};
ghost use Rattle.vl_pre.specs.Directives.{name_behind};
ghost use Rattle.vl_pre.specs.Operands.{IsNamed};
ghost use Rattle.vl_pre.specs.MacroViews.{names_seen, formals_seen, defined_seen};
ghost use Rattle.vl_pre.specs.Gives.{Gives, Stops};

use crate::directives::{is_directive, is_stray};
use crate::lines::{name_in_line, next_in_line, opens_list, skip_in_line};
use crate::pieces::{Cursor, Over, PieceRef};
use crate::stopped::Stopped;
use std::alloc::Global;

/// A macro: its formals, if it has a list of them, and its text.
#[derive(Debug, Drop)]
pub(crate) struct Macro {
    pub(crate) formals: Option<Vec<Vec<u8>>>,
    pub(crate) text: Vec<u8>,
}

/// A name and the macro that it is to be.
#[derive(Debug, Drop)]
pub(crate) struct Defined {
    pub(crate) name: Vec<u8>,
    pub(crate) meaning: Macro,
}

/// Whether a name is among others.
pub(crate) fn is_among(names: &[Vec<u8>], name: &[u8]) -> bool
    ensures { result ≡ is_among (names_seen names.now) name.now }
{
    for other in names {
        if other.as_slice() == name {
            return true;
        }
    }
    false
}

/// Adds a copy of a name.
pub(crate) fn push_name(names: &mut Vec<Vec<u8>>, name: &[u8]) -> Result<(), Stopped>
    ensures ok { OnOk result (map (λ n. n.items) names.new.items ≡ map (λ n. n.items) names.old.items ++ name.now ∷ []) }
    ensures err { IfErr result (λ stop. stop ≡ Stopped.Memory) }
{
    let copy = Vec::from_slice(*names.allocator(), name)?;
    names.push(copy)?;
    Ok(())
}

/// What may come next in a list of formals.
#[derive(Clone, Copy, Debug, PartialEq, Eq)]
pub(crate) enum ListState {
    /// A name.
    Awaits,
    /// A comma or the parenthesis that closes the list.
    Named,
    /// Nothing: the list is closed.
    Closed,
}

/// What a piece of a list of distinct formals does.
fn formals_turn(
    names: &mut Vec<Vec<u8>>,
    state: ListState,
    piece: &PieceRef,
    line: u32,
) -> Result<ListState, Stopped>
    ensures { Gives (λ s. record { state = s; names = map (λ n. n.items) names.new.items }) result
        (formals_turn line (record { state = state; names = map (λ n. n.items) names.old.items }) (seen piece.now)) }
{
    if piece.is_blank() {
        return Ok(state);
    }
    match state {
        ListState::Awaits if piece.is_identifier() && !is_among(names, piece.bytes) => {
            push_name(names, piece.bytes)?;
            Ok(ListState::Named)
        }
        ListState::Named if piece.is_byte(b',') => Ok(ListState::Awaits),
        ListState::Named if piece.is_byte(b')') => Ok(ListState::Closed),
        _ => Err(Stopped::Broken { rule: 11, line }),
    }
}

/// The formals up to the parenthesis that closes their list.
fn list_in_line(
    alloc: Global,
    text: &[u8],
    cursor: &mut Cursor,
    line: u32,
) -> Result<Vec<Vec<u8>>, Stopped>
    requires { IsWithin text.now cursor.old }
    ensures within { IsWithin text.now cursor.new }
    ensures forward { cursor.old.at ≤ cursor.new.at }
    ensures goes { GoesOn (left text.now cursor.old) (left text.now cursor.new) }
    ensures exact { Gives (λ names. record { formals = Some (map (λ n. n.items) names.items); rest = in_line text.now cursor.new }) result
        (list_from line (record { state = ListState.Awaits; names = [] }) (in_line text.now cursor.old)) }
{
    let mut names = Vec::new(alloc);
    let mut state = ListState::Awaits;
    while let Some(piece) = next_in_line(text, cursor) {
        state = formals_turn(&mut names, state, &piece, line)?;
        if state == ListState::Closed {
            return Ok(names);
        }
    }
    Err(Stopped::Broken { rule: 11, line })
}

/// The formals of a definition, if it has a list of them.
fn heading_in_line(
    alloc: Global,
    text: &[u8],
    cursor: &mut Cursor,
    line: u32,
) -> Result<Option<Vec<Vec<u8>>>, Stopped>
    requires { IsWithin text.now cursor.old }
    ensures within { IsWithin text.now cursor.new }
    ensures forward { cursor.old.at ≤ cursor.new.at }
    ensures goes { GoesOn (left text.now cursor.old) (left text.now cursor.new) }
    ensures exact { Gives (λ formals. record { formals = formals_seen formals; rest = in_line text.now cursor.new }) result
        (heading line (in_line text.now cursor.old)) }
{
    if !opens_list(text, cursor) {
        return Ok(None);
    }
    Ok(Some(list_in_line(alloc, text, cursor, line)?))
}

/// How many bytes stay behind a piece, of which there are so many: all, unless it is a space.
fn kept_behind(piece: &PieceRef, kept: usize, len: usize) -> usize
    ensures { result ≡ (if is_space (seen piece.now) then kept else len) }
{
    if piece.is_space() { kept } else { len }
}

/// The rest of the line as a macro's text, without blanks at its ends.
fn text_in_line(alloc: Global, text: &[u8], cursor: &mut Cursor) -> Result<Vec<u8>, Stopped>
    requires { IsWithin text.now cursor.old }
    ensures within { IsWithin text.now cursor.new }
    ensures forward { cursor.old.at ≤ cursor.new.at }
    ensures goes { GoesOn (left text.now cursor.old) (left text.now cursor.new) }
    ensures exact { Gives (λ bytes. bytes.items) result (macro_text (in_line text.now cursor.old)) }
    ensures ended { OnOk result (in_line text.now cursor.new ≡ []) }
{
    skip_in_line(text, cursor, Over::Spaces);
    let mut bytes = Vec::new(alloc);
    let mut kept = 0;
    while let Some(piece) = next_in_line(text, cursor) {
        if is_stray(&piece) {
            return Err(Stopped::Broken {
                rule: 11,
                line: piece.line,
            });
        }
        bytes.extend_from_slice(piece.bytes)?;
        kept = kept_behind(&piece, kept, bytes.len());
    }
    bytes.truncate(kept);
    Ok(bytes)
}

/// The name of a definition.
fn name_of<'a>(text: &'a [u8], cursor: &mut Cursor, line: u32) -> Result<&'a [u8], Stopped>
    requires { IsWithin text.now cursor.old }
    ensures within { IsWithin text.now cursor.new }
    ensures forward { cursor.old.at ≤ cursor.new.at }
    ensures goes { GoesOn (left text.now cursor.old) (left text.now cursor.new) }
    ensures exact { MatchResult result
        (λ name. IsNamed (macro_name line (name_behind (in_line text.now cursor.old))) name.now (in_line text.now cursor.old) (in_line text.now cursor.new))
        (λ stop. Stops stop (macro_name line (name_behind (in_line text.now cursor.old)))) }
{
    match name_in_line(text, cursor) {
        Some(name) if !is_directive(name) => Ok(name),
        _ => Err(Stopped::Broken { rule: 11, line }),
    }
}

/// What the line behind `define` defines. The place moves to the line's end.
pub(crate) fn define(
    alloc: Global,
    text: &[u8],
    cursor: &mut Cursor,
    line: u32,
) -> Result<Defined, Stopped>
    requires { IsWithin text.now cursor.old }
    ensures within { IsWithin text.now cursor.new }
    ensures exact { Gives defined_seen result (definition line (in_line text.now cursor.old)) }
    ensures forward { cursor.old.at ≤ cursor.new.at }
    ensures left { OnOk result (left text.now cursor.new ≡ drop (line_from 0 (left text.now cursor.old)).size (left text.now cursor.old)) }
{
    let name = name_of(text, cursor, line)?;
    let name = Vec::from_slice(alloc, name)?;
    let formals = heading_in_line(alloc, text, cursor, line)?;
    let text = text_in_line(alloc, text, cursor)?;
    Ok(Defined {
        name,
        meaning: Macro { formals, text },
    })
}
