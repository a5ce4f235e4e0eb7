//! The line of a definition, with its continuations.
ghost use Rattle.std.specs.Prelude.{◌≡◌, ◌<◌, ◌≤◌, ◌+◌, ◌∷◌, [], ℕ, true, false, Some, None, IfSome, IfNone, MatchOption, length, drop, if◌then◌else◌};
ghost use Rattle.std.specs.List.{prefix_len};
ghost use Rattle.vl_pre.specs.Cursors.{left, seen, passes, IsWithin};
ghost use Rattle.vl_pre.specs.Macros.{begins_with, line_from, blanked, continuation};
ghost use Rattle.vl_pre.specs.Directives.{name_behind};
ghost use Rattle.vl_pre.specs.Operands.{IsOperand};
ghost use Rattle.vl_pre.specs.Lines.{in_line, GoesOn, IsLineEnd};

use crate::pieces::{Cursor, Kind, Over, PieceRef, next_piece, skip};

/// The place behind the end of the line, where nothing but carriage returns stands before it.
fn line_end(text: &[u8], cursor: Cursor) -> Option<Cursor>
    requires { IsWithin text.now cursor }
    ensures { IsLineEnd text.now cursor result }
{
    let mut behind = cursor;
    skip(text, &mut behind, Over::Returns);
    match next_piece(text, &mut behind) {
        Some(piece) if piece.is_byte(b'\n') => Some(behind),
        _ => None,
    }
}

/// The blank that a continuation becomes.
fn blank(line: u32) -> PieceRef<'static>
    ensures { seen result ≡ record { line = line; kind = Kind.Single 32; bytes = 32 ∷ [] } }
{
    PieceRef {
        line,
        kind: Kind::Single(b' '),
        bytes: b" ",
    }
}

/// The piece at a place of a line, or the blank of a continuation, and the place behind it.
fn piece_or_blank<'a>(text: &'a [u8], piece: PieceRef<'a>, behind: Cursor) -> (PieceRef<'a>, Cursor)
    requires { IsWithin text.now behind }
    ensures piece { seen result.0 ≡ blanked (continuation (seen piece.entry) (left text.now behind)) (seen piece.entry) }
    ensures left { left text.now result.1 ≡ drop (continuation (seen piece.entry) (left text.now behind)) (left text.now behind) }
    ensures within { IsWithin text.now result.1 }
    ensures forward { behind.at ≤ result.1.at }
{
    if !piece.is_byte(b'\\') {
        return (piece, behind);
    }
    match line_end(text, behind) {
        Some(end) => (blank(piece.line), end),
        None => (piece, behind),
    }
}

/// The next piece of the line, in which a continuation is a blank; None exactly at the line's end.
pub(crate) fn next_in_line<'a>(text: &'a [u8], cursor: &mut Cursor) -> Option<PieceRef<'a>>
    requires { IsWithin text.now cursor.old }
    ensures within { IsWithin text.now cursor.new }
    ensures none { IfNone result (in_line text.now cursor.old ≡ []) }
    ensures stays { IfNone result (cursor.new ≡ cursor.old) }
    ensures some { IfSome result (λ piece. in_line text.now cursor.old ≡ seen piece ∷ in_line text.now cursor.new) }
    ensures goes { GoesOn (left text.now cursor.old) (left text.now cursor.new) }
    ensures forward { IfSome result (λ piece. cursor.old.at < cursor.new.at) }
{
    let mut behind = *cursor;
    let piece = next_piece(text, &mut behind)?;
    if piece.is_byte(b'\n') {
        return None;
    }
    let (piece, behind) = piece_or_blank(text, piece, behind);
    *cursor = behind;
    Some(piece)
}

/// Moves a place behind all pieces of the line that are passed over.
pub(crate) fn skip_in_line(text: &[u8], cursor: &mut Cursor, over: Over)
    requires { IsWithin text.now cursor.old }
    ensures within { IsWithin text.now cursor.new }
    ensures left { in_line text.now cursor.new ≡ drop (prefix_len (passes over) (in_line text.now cursor.old)) (in_line text.now cursor.old) }
    ensures goes { GoesOn (left text.now cursor.old) (left text.now cursor.new) }
    ensures forward { cursor.old.at ≤ cursor.new.at }
{
    loop {
        let mut ahead = *cursor;
        match next_in_line(text, &mut ahead) {
            Some(piece) if over.passes(&piece) => *cursor = ahead,
            _ => return,
        }
    }
}

/// The identifier behind blanks alone, which the place moves behind.
pub(crate) fn name_in_line<'a>(text: &'a [u8], cursor: &mut Cursor) -> Option<&'a [u8]>
    requires { IsWithin text.now cursor.old }
    ensures within { IsWithin text.now cursor.new }
    ensures goes { GoesOn (left text.now cursor.old) (left text.now cursor.new) }
    ensures exact { MatchOption result (name_behind (in_line text.now cursor.old) ≡ None)
        (λ name. IsOperand (name_behind (in_line text.now cursor.old)) name.now (in_line text.now cursor.old) (in_line text.now cursor.new)) }
    ensures forward { cursor.old.at ≤ cursor.new.at }
{
    skip_in_line(text, cursor, Over::Blanks);
    match next_in_line(text, cursor) {
        Some(piece) if piece.is_identifier() => Some(piece.bytes),
        _ => None,
    }
}

/// Whether the line goes on with a parenthesis that opens, which the place then moves behind.
pub(crate) fn opens_list(text: &[u8], cursor: &mut Cursor) -> bool
    requires { IsWithin text.now cursor.old }
    ensures within { IsWithin text.now cursor.new }
    ensures goes { GoesOn (left text.now cursor.old) (left text.now cursor.new) }
    ensures opens { result ≡ begins_with 40 (in_line text.now cursor.old) }
    ensures left { in_line text.now cursor.new ≡ (if result then drop 1 (in_line text.now cursor.old) else in_line text.now cursor.old) }
    ensures forward { cursor.old.at ≤ cursor.new.at }
{
    let mut ahead = *cursor;
    match next_in_line(text, &mut ahead) {
        Some(piece) if piece.is_byte(b'(') => {
            *cursor = ahead;
            true
        }
        _ => false,
    }
}
