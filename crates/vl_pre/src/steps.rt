//! What a piece of a file comes to: text, a directive, or nothing where its group isn't read.
ghost use Rattle.std.specs.Prelude.{◌≡◌, ◌≤◌, Some, None, Ok, Err, OnOk, IfOk, IfSome, MatchOption, true, false};
ghost use Rattle.vl_pre.specs.Runs.{most};
ghost use Rattle.vl_pre.specs.Cursors.{left, seen, IsWithin};
ghost use Rattle.vl_pre.specs.Directives.{directive_of};
ghost use Rattle.vl_pre.specs.Pieces.{word_of};
ghost use Rattle.vl_pre.specs.Groups.{is_conditional};
ghost use Rattle.vl_pre.specs.Turning.{open_groups};
ghost use Rattle.vl_pre.specs.Files.{include_piece, conditional_piece, directive_piece, word_piece, read_piece, passed_word, passed_piece, file_piece};
ghost use Rattle.vl_pre.specs.Readings.{reading_seen, IsReading, IsTurn, IsInclude};
ghost use Rattle.vl_pre.specs.Gives.{Gives, Stops, Tells};

use crate::directives::{Directive, directive_of, string_behind};
use crate::groups::{Group, is_read, turn};
use crate::pieces::{Cursor, Kind, Over, PieceRef, skip};
use crate::state::{State, define_macro, drop_nettype, keep, undef_macro, use_macro};
use crate::stopped::Stopped;
use std::alloc::Global;

/// The name that must stand behind `include`.
fn include_name<'a>(
    text: &'a [u8],
    cursor: &mut Cursor,
    piece: PieceRef,
) -> Result<&'a [u8], Stopped>
    requires { IsWithin text.now cursor.old }
    ensures inside { IsWithin text.now cursor.new }
    ensures forward { cursor.old.at ≤ cursor.new.at }
    ensures exact { Tells (λ name. IsInclude name.now (left text.now cursor.old) (left text.now cursor.new)) result (include_piece (seen piece.entry) (left text.now cursor.old)) }
{
    match string_behind(text, cursor) {
        Some(name) => Ok(name),
        None => Err(Stopped::Broken {
            rule: 11,
            line: piece.line,
        }),
    }
}

/// A conditional directive changes the groups.
fn conditional(
    state: &State,
    groups: &mut Vec<Group>,
    directive: Directive,
    piece: PieceRef,
    text: &[u8],
    cursor: &mut Cursor,
) -> Result<(), Stopped>
    requires fine { IsReading (reading_seen state.now) }
    requires within { IsWithin text.now cursor.old }
    ensures inside { IsWithin text.now cursor.new }
    ensures forward { cursor.old.at ≤ cursor.new.at }
    ensures exact { Tells (λ _. IsTurn (open_groups groups.new.items) (reading_seen state.now) (left text.now cursor.old) (left text.now cursor.new)) result
        (conditional_piece directive (seen piece.entry) (left text.now cursor.old) (open_groups groups.old.items) (reading_seen state.now)) }
{
    turn(
        &state.table,
        groups,
        directive,
        text,
        cursor,
        state.text.stretch(),
        piece.line,
    )
}

/// Whether a directive opens, parts or ends a group.
fn is_conditional(directive: Directive) -> bool
    ensures { result ≡ is_conditional directive }
{
    match directive {
        Directive::Ifdef
        | Directive::Ifndef
        | Directive::Elsif
        | Directive::Else
        | Directive::Endif => true,
        Directive::Define
        | Directive::Undef
        | Directive::Include
        | Directive::Timescale
        | Directive::DefaultNettype
        | Directive::Bare => false,
    }
}

/// A directive where its group is read; the name of the file that it includes, if it does.
fn directive_step<'a>(
    alloc: Global,
    state: &mut State,
    groups: &mut Vec<Group>,
    directive: Directive,
    piece: PieceRef,
    text: &'a [u8],
    cursor: &mut Cursor,
) -> Result<Option<&'a [u8]>, Stopped>
    requires fine { IsReading (reading_seen state.old) }
    requires within { IsWithin text.now cursor.old }
    ensures fine { OnOk result (IsReading (reading_seen state.new)) }
    ensures inside { IsWithin text.now cursor.new }
    ensures forward { cursor.old.at ≤ cursor.new.at }
    ensures stays { IfOk result (λ include. IfSome include (λ _. (groups.new ≡ groups.old) × (reading_seen state.new ≡ reading_seen state.old))) }
    ensures exact { Tells (λ include step. MatchOption include
        (IsTurn (open_groups groups.new.items) (reading_seen state.new) (left text.now cursor.old) (left text.now cursor.new) step)
        (λ name. IsInclude name.now (left text.now cursor.old) (left text.now cursor.new) step)) result
        (directive_piece directive (seen piece.entry) (left text.now cursor.old) (open_groups groups.old.items) (reading_seen state.old)) }
{
    match directive {
        Directive::Include => return Ok(Some(include_name(text, cursor, piece)?)),
        Directive::Define => define_macro(alloc, state, piece, text, cursor)?,
        Directive::Undef => undef_macro(state, piece, text, cursor)?,
        Directive::Timescale => skip(text, cursor, Over::RestOfLine),
        Directive::DefaultNettype => drop_nettype(piece, text, cursor)?,
        Directive::Bare => {}
        Directive::Ifdef
        | Directive::Ifndef
        | Directive::Elsif
        | Directive::Else
        | Directive::Endif => conditional(state, groups, directive, piece, text, cursor)?,
    }
    Ok(None)
}

/// A word behind a backquote where its group is read: a directive or a use.
fn word_step<'a>(
    alloc: Global,
    state: &mut State,
    groups: &mut Vec<Group>,
    piece: PieceRef,
    text: &'a [u8],
    cursor: &mut Cursor,
) -> Result<Option<&'a [u8]>, Stopped>
    requires fine { IsReading (reading_seen state.old) }
    requires within { IsWithin text.now cursor.old }
    requires line { piece.line ≤ most }
    ensures fine { OnOk result (IsReading (reading_seen state.new)) }
    ensures inside { IsWithin text.now cursor.new }
    ensures forward { cursor.old.at ≤ cursor.new.at }
    ensures stays { IfOk result (λ include. IfSome include (λ _. (groups.new ≡ groups.old) × (reading_seen state.new ≡ reading_seen state.old))) }
    ensures exact { Tells (λ include step. MatchOption include
        (IsTurn (open_groups groups.new.items) (reading_seen state.new) (left text.now cursor.old) (left text.now cursor.new) step)
        (λ name. IsInclude name.now (left text.now cursor.old) (left text.now cursor.new) step)) result
        (word_piece (directive_of (word_of (seen piece.entry))) (seen piece.entry) (left text.now cursor.old) (open_groups groups.old.items) (reading_seen state.old)) }
{
    match directive_of(piece.word()) {
        Some(directive) => directive_step(alloc, state, groups, directive, piece, text, cursor),
        None => {
            use_macro(alloc, state, piece, text, cursor)?;
            Ok(None)
        }
    }
}

/// A piece where its group is read.
fn read_step<'a>(
    alloc: Global,
    state: &mut State,
    groups: &mut Vec<Group>,
    piece: PieceRef,
    text: &'a [u8],
    cursor: &mut Cursor,
) -> Result<Option<&'a [u8]>, Stopped>
    requires fine { IsReading (reading_seen state.old) }
    requires within { IsWithin text.now cursor.old }
    requires line { piece.line ≤ most }
    ensures fine { OnOk result (IsReading (reading_seen state.new)) }
    ensures inside { IsWithin text.now cursor.new }
    ensures forward { cursor.old.at ≤ cursor.new.at }
    ensures stays { IfOk result (λ include. IfSome include (λ _. (groups.new ≡ groups.old) × (reading_seen state.new ≡ reading_seen state.old))) }
    ensures exact { Tells (λ include step. MatchOption include
        (IsTurn (open_groups groups.new.items) (reading_seen state.new) (left text.now cursor.old) (left text.now cursor.new) step)
        (λ name. IsInclude name.now (left text.now cursor.old) (left text.now cursor.new) step)) result
        (read_piece (seen piece.entry) (left text.now cursor.old) (open_groups groups.old.items) (reading_seen state.old)) }
{
    match piece.kind {
        Kind::Word => word_step(alloc, state, groups, piece, text, cursor),
        Kind::Backquote => Err(Stopped::Broken {
            rule: 11,
            line: piece.line,
        }),
        Kind::Identifier | Kind::Quoted | Kind::Single(_) => {
            keep(state, &piece)?;
            Ok(None)
        }
    }
}

/// A word behind a backquote where its group isn't read: only conditional directives do anything.
fn passed_word(
    state: &State,
    groups: &mut Vec<Group>,
    piece: PieceRef,
    text: &[u8],
    cursor: &mut Cursor,
) -> Result<(), Stopped>
    requires fine { IsReading (reading_seen state.now) }
    requires within { IsWithin text.now cursor.old }
    ensures inside { IsWithin text.now cursor.new }
    ensures forward { cursor.old.at ≤ cursor.new.at }
    ensures exact { Tells (λ _. IsTurn (open_groups groups.new.items) (reading_seen state.now) (left text.now cursor.old) (left text.now cursor.new)) result
        (passed_word (directive_of (word_of (seen piece.entry))) (seen piece.entry) (left text.now cursor.old) (open_groups groups.old.items) (reading_seen state.now)) }
{
    match directive_of(piece.word()) {
        Some(directive) if is_conditional(directive) => conditional(
            state, groups, directive, piece, text, cursor,
        ),
        _ => Ok(()),
    }
}

/// A piece where its group isn't read.
fn passed_step(
    state: &State,
    groups: &mut Vec<Group>,
    piece: PieceRef,
    text: &[u8],
    cursor: &mut Cursor,
) -> Result<(), Stopped>
    requires fine { IsReading (reading_seen state.now) }
    requires within { IsWithin text.now cursor.old }
    ensures inside { IsWithin text.now cursor.new }
    ensures forward { cursor.old.at ≤ cursor.new.at }
    ensures exact { Tells (λ _. IsTurn (open_groups groups.new.items) (reading_seen state.now) (left text.now cursor.old) (left text.now cursor.new)) result
        (passed_piece (seen piece.entry) (left text.now cursor.old) (open_groups groups.old.items) (reading_seen state.now)) }
{
    match piece.kind {
        Kind::Word => passed_word(state, groups, piece, text, cursor),
        Kind::Backquote | Kind::Identifier | Kind::Quoted | Kind::Single(_) => Ok(()),
    }
}

/// A piece of a file; the name of the file that it includes, if it does. The place moves behind what belongs to it.
pub(crate) fn file_step<'a>(
    alloc: Global,
    state: &mut State,
    groups: &mut Vec<Group>,
    piece: PieceRef,
    text: &'a [u8],
    cursor: &mut Cursor,
) -> Result<Option<&'a [u8]>, Stopped>
    requires fine { IsReading (reading_seen state.old) }
    requires within { IsWithin text.now cursor.old }
    requires line { piece.line ≤ most }
    ensures fine { OnOk result (IsReading (reading_seen state.new)) }
    ensures inside { IsWithin text.now cursor.new }
    ensures forward { cursor.old.at ≤ cursor.new.at }
    ensures stays { IfOk result (λ include. IfSome include (λ _. (groups.new ≡ groups.old) × (reading_seen state.new ≡ reading_seen state.old))) }
    ensures exact { Tells (λ include step. MatchOption include
        (IsTurn (open_groups groups.new.items) (reading_seen state.new) (left text.now cursor.old) (left text.now cursor.new) step)
        (λ name. IsInclude name.now (left text.now cursor.old) (left text.now cursor.new) step)) result
        (file_piece (seen piece.entry) (left text.now cursor.old) (open_groups groups.old.items) (reading_seen state.old)) }
{
    if is_read(groups) {
        return read_step(alloc, state, groups, piece, text, cursor);
    }
    passed_step(state, groups, piece, text, cursor)?;
    Ok(None)
}
