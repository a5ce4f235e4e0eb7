//! A macro's text with arguments in place of its formals.
ghost use Rattle.std.specs.Prelude.{◌≡◌, ◌≤◌, Some, None, MatchOption, slice_get};
ghost use Rattle.vl_pre.specs.Cursors.{left, seen, IsWithin};
ghost use Rattle.vl_pre.specs.Pieces.{pieces_of, is_identifier};
ghost use Rattle.vl_pre.specs.Macros.{argument_of, substituted, piece_text};
ghost use Rattle.vl_pre.specs.MacroViews.{names_seen};
ghost use Rattle.vl_pre.specs.Uses.{limited};
ghost use Rattle.vl_pre.specs.Gives.{Gives};

use crate::pieces::{Cursor, PieceRef, next_piece};
use crate::stopped::Stopped;
use crate::text::MAX_TEXT;
use crate::uses::{Context, TEXT_LIMIT};
use std::alloc::Global;

/// The text of the argument of a formal.
fn argument_of<'a>(formals: &[Vec<u8>], given: &'a [Vec<u8>], name: &[u8]) -> Option<&'a [u8]>
    ensures { MatchOption result (argument_of (names_seen formals.now) (names_seen given.now) name.now ≡ None)
        (λ text. argument_of (names_seen formals.now) (names_seen given.now) name.now ≡ Some text.now) }
{
    for (i, formal) in formals.iter().enumerate() {
        if formal.as_slice() == name {
            return text_at(given, i);
        }
    }
    None
}

/// The text of an argument.
fn text_at(given: &[Vec<u8>], i: usize) -> Option<&[u8]>
    ensures { MatchOption result (slice_get (names_seen given.now) i ≡ None) (λ text. slice_get (names_seen given.now) i ≡ Some text.now) }
{
    match given.get(i) {
        Some(text) => Some(text.as_slice()),
        None => None,
    }
}

/// What stands for a piece: its argument, if it is a formal.
fn piece_text<'a>(formals: &[Vec<u8>], given: &'a [Vec<u8>], piece: &PieceRef<'a>) -> &'a [u8]
    ensures { result.now ≡ piece_text (names_seen formals.now) (names_seen given.now) (seen piece.now) }
{
    if !piece.is_identifier() {
        return piece.bytes;
    }
    match argument_of(formals, given, piece.bytes) {
        Some(text) => text,
        None => piece.bytes,
    }
}

/// A macro's text with arguments in place of its formals, unless it is too long.
pub(crate) fn substitute(
    alloc: Global,
    context: Context,
    formals: &[Vec<u8>],
    given: &[Vec<u8>],
    text: &[u8],
) -> Result<Vec<u8>, Stopped>
    ensures { Gives (λ whole. whole.items) result (limited context (substituted (names_seen formals.now) (names_seen given.now) (pieces_of 0 text.now))) }
{
    if text.len() > MAX_TEXT {
        return Err(Stopped::Memory);
    }
    let mut whole = Vec::new(alloc);
    let mut cursor = Cursor { at: 0, line: 0 };
    while let Some(piece) = next_piece(text, &mut cursor) {
        let more = piece_text(formals, given, &piece);
        if whole.len() + more.len() > TEXT_LIMIT {
            return context.broken(80);
        }
        whole.extend_from_slice(more)?;
    }
    Ok(whole)
}
