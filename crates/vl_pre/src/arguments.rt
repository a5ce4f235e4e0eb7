//! The arguments of a use.
ghost use Rattle.std.specs.Prelude.{◌≡◌, ◌<◌, ◌≤◌, ◌+◌, ◌++◌, ◌∷◌, [], ℕ, true, false, Some, None, Ok, Err, IfOk, OnOk, IfErr, MatchOption, ◌↔◌, List, map, length, drop, IsTrue, ◌==◌, if◌then◌else◌};
ghost use Rattle.std.specs.List.{prefix_len};
ghost use Rattle.vl_pre.specs.declared.pieces.Cursor.{Cursor};
ghost use Rattle.vl_pre.specs.Pieces.{is_space};
ghost use Rattle.vl_pre.specs.Cursors.{left, seen, IsWithin};
ghost use Rattle.vl_pre.specs.Macros.{begins_with};
ghost use Rattle.vl_pre.specs.MacroViews.{formals_seen};
ghost use Rattle.vl_pre.specs.Uses.{Arguments, class_of, brackets, arguments, arguments_from, arguments_turn, no_arguments};
ghost use Rattle.vl_pre.specs.Arguing.{IsPiece, IsReader, IsTurned, Gave};
ghost use Rattle.vl_pre.specs.Gives.{Gives, Stops, Tells};

use crate::directives::is_stray;
use crate::pieces::{Cursor, Over, PieceRef, next_piece, skip};
use crate::stopped::Stopped;
use crate::uses::{Argument, Context, brackets};
use std::alloc::Global;

/// What a piece is among arguments.
#[derive(Clone, Copy, Debug, PartialEq, Eq)]
pub(crate) enum Class {
    /// A space in front of an argument.
    Passed,
    /// The parenthesis that closes the list.
    Closes,
    /// A comma between two arguments.
    Ends,
    /// A part of an argument.
    Belongs,
}

/// Arguments that are read: those that came, where the next begins and ends so far, and how many brackets are open in it.
#[derive(Debug, Drop)]
struct Reader {
    came: Vec<Argument>,
    start: Cursor,
    end: usize,
    depth: usize,
}

/// Where an argument ends behind a piece: no space ends it.
fn end_behind(piece: &PieceRef, end: usize, behind: usize) -> usize
    ensures { result ≡ (if is_space (seen piece.now) then end else behind) }
{
    if piece.is_space() { end } else { behind }
}

impl Reader {
    /// What a piece is here; nothing came of the next argument yet where it ends as it begins.
    fn class_of(&self, piece: &PieceRef) -> Class
        ensures { result ≡ class_of (self.now.end == self.now.start.at) self.now.depth (seen piece.now) }
    {
        if self.end == self.start.at && piece.is_space() {
            Class::Passed
        } else if self.depth == 0 && piece.is_byte(b')') {
            Class::Closes
        } else if self.depth == 0 && piece.is_byte(b',') {
            Class::Ends
        } else {
            Class::Belongs
        }
    }

    /// The next argument begins at a place.
    fn begin(&mut self, place: Cursor)
        ensures { self.new ≡ record self.old { start = place; end = place.at } }
    {
        self.start = place;
        self.end = place.at;
    }

    /// The next argument has come, and another may begin at a place.
    fn close(&mut self, place: Cursor) -> Result<(), Stopped>
        ensures came { OnOk result (self.new.came.items ≡ self.old.came.items ++ record { start = self.old.start; end = self.old.end } ∷ []) }
        ensures rest { OnOk result ((self.new.start ≡ place) × (self.new.end ≡ place.at) × (self.new.depth ≡ self.old.depth)) }
        ensures err { IfErr result (λ stop. stop ≡ Stopped.Memory) }
    {
        self.came.push(Argument {
            start: self.start,
            end: self.end,
        })?;
        self.begin(place);
        Ok(())
    }

    /// A piece belongs to the next argument, up to a place.
    fn add(&mut self, piece: &PieceRef, place: Cursor)
        requires { self.old.depth < 18446744073709551615 }
        ensures { self.new ≡ record self.old { depth = brackets self.old.depth (seen piece.now); end = (if is_space (seen piece.now) then self.old.end else place.at) } }
    {
        self.depth = brackets(self.depth, piece);
        self.end = end_behind(piece, self.end, place.at);
    }
}

/// What a piece of the arguments does, with the place behind it; true where it closes the list.
fn arguments_turn(
    context: Context,
    reader: &mut Reader,
    piece: &PieceRef,
    place: Cursor,
) -> Result<bool, Stopped>
    requires { reader.old.depth < 18446744073709551615 }
    ensures { (text : List ℕ) (before : Cursor) (given : Arguments) → IsPiece text before place (seen piece.now) → IsReader text before reader.old given
        → Tells (IsTurned text place reader.new given.size) result (arguments_turn context given (seen piece.now)) }
{
    if is_stray(piece) {
        return Err(Stopped::Broken {
            rule: 11,
            line: context.told(piece.line),
        });
    }
    match reader.class_of(piece) {
        Class::Passed => {
            reader.begin(place);
            Ok(false)
        }
        Class::Closes => {
            reader.close(place)?;
            Ok(true)
        }
        Class::Ends => {
            reader.close(place)?;
            Ok(false)
        }
        Class::Belongs => {
            reader.add(piece, place);
            Ok(false)
        }
    }
}

/// The arguments up to the closing parenthesis, which the place moves behind.
fn arguments_from(
    alloc: Global,
    context: Context,
    text: &[u8],
    cursor: &mut Cursor,
) -> Result<Vec<Argument>, Stopped>
    requires { IsWithin text.now cursor.old }
    ensures within { IsWithin text.now cursor.new }
    ensures forward { cursor.old.at ≤ cursor.new.at }
    ensures exact { Tells (λ came. Gave text.now came.items (left text.now cursor.old) (left text.now cursor.new)) result (arguments_from context no_arguments (left text.now cursor.old)) }
{
    let mut reader = Reader {
        came: Vec::new(alloc),
        start: *cursor,
        end: cursor.at,
        depth: 0,
    };
    while let Some(piece) = next_piece(text, cursor) {
        if arguments_turn(context, &mut reader, &piece, *cursor)? {
            return Ok(reader.came);
        }
    }
    context.broken(13)
}

/// Whether a parenthesis that opens stands behind spaces alone, which the place then moves behind.
fn opens(text: &[u8], cursor: &mut Cursor) -> bool
    requires { IsWithin text.now cursor.old }
    ensures within { IsWithin text.now cursor.new }
    ensures forward { cursor.old.at ≤ cursor.new.at }
    ensures opens { result ≡ begins_with 40 (drop (prefix_len is_space (left text.now cursor.old)) (left text.now cursor.old)) }
    ensures left { IsTrue result → left text.now cursor.new ≡ drop (prefix_len is_space (left text.now cursor.old) + 1) (left text.now cursor.old) }
{
    skip(text, cursor, Over::Spaces);
    match next_piece(text, cursor) {
        Some(piece) => piece.is_byte(b'('),
        None => false,
    }
}

/// The arguments of a macro with formals.
pub(crate) fn arguments(
    alloc: Global,
    context: Context,
    formals: &Option<Vec<Vec<u8>>>,
    text: &[u8],
    cursor: &mut Cursor,
) -> Result<Vec<Argument>, Stopped>
    requires { IsWithin text.now cursor.old }
    ensures within { IsWithin text.now cursor.new }
    ensures forward { cursor.old.at ≤ cursor.new.at }
    ensures exact { Tells (λ came. Gave text.now came.items (left text.now cursor.old) (left text.now cursor.new)) result (arguments context (formals_seen formals.now) (left text.now cursor.old)) }
{
    let Some(formals) = formals else {
        return Ok(Vec::new(alloc));
    };
    if !opens(text, cursor) {
        return context.broken(13);
    }
    let given = arguments_from(alloc, context, text, cursor)?;
    if given.len() != formals.len() {
        return context.broken(13);
    }
    Ok(given)
}
