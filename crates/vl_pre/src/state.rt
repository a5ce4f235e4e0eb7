//! What is read so far, and what a piece of a file adds to it.
ghost use Rattle.std.specs.Prelude.{◌≡◌, ◌≤◌, ◌+◌, ◌-◌, ◌*◌, [], ℕ, true, false, OnOk, IfOk, IfErr, length, drop, bytes_eq};
ghost use Rattle.std.specs.List.{list_any};
ghost use Rattle.vl_pre.specs.Runs.{most};
ghost use Rattle.vl_pre.specs.Breaks.{max_text, max_nesting};
ghost use Rattle.vl_pre.specs.Uses.{use_of, nested};
ghost use Rattle.vl_pre.specs.Cursors.{left, seen, IsWithin};
ghost use Rattle.vl_pre.specs.Macros.{line_from};
ghost use Rattle.vl_pre.specs.Files.{Reading, setting_of, added, kept_piece, use_piece, define_piece, undef_piece, nettype_piece, is_nettype};
ghost use Rattle.vl_pre.specs.Readings.{reading_seen, IsReading, IsExpanded, Takes};
ghost use Rattle.vl_pre.specs.Gives.{Gives, Stops, Tells};

use crate::expansion::expand_word;
use crate::groups::operand;
use crate::macros::define;
use crate::pieces::{Cursor, PieceRef};
use crate::stopped::Stopped;
use crate::table::Table;
use crate::text::Text;
use crate::uses::{Context, Progress, TEXT_LIMIT};
use std::alloc::Global;
use xt_base::Words;

/// How many uses may stand in one another.
const NESTING_LIMIT: u32 = 64;

/// What is read so far: the macros, how many uses were expanded, the names that were loaded, and the text.
#[derive(Debug, Drop)]
pub(crate) struct State {
    pub(crate) table: Table,
    pub(crate) uses: u32,
    pub(crate) loads: Words,
    pub(crate) text: Text,
}

/// Bytes come to the text, all with one place.
fn add(text: &mut Text, bytes: &[u8], line: u32) -> Result<(), Stopped>
    requires room { length text.old.bytes + length bytes.now ≤ max_text }
    requires stretch { length text.old.names ≤ most }
    requires line { line ≤ most }
    ensures ok { OnOk result (text.new ≡ added text.old line bytes.now) }
    ensures size { OnOk result (length text.new.bytes ≡ length text.old.bytes + length bytes.now) }
    ensures names { OnOk result (text.new.names ≡ text.old.names) }
    ensures err { IfErr result (λ stop. stop ≡ Stopped.Memory) }
{
    for byte in bytes {
        text.push(*byte, line)?;
    }
    Ok(())
}

/// A piece stays that is no word behind a backquote.
pub(crate) fn keep(state: &mut State, piece: &PieceRef) -> Result<(), Stopped>
    requires fine { IsReading (reading_seen state.old) }
    requires line { piece.now.line ≤ most }
    ensures fine { OnOk result (IsReading (reading_seen state.new)) }
    ensures exact { Tells (λ _ taken. (taken.size ≡ 0) × (taken.reading ≡ reading_seen state.new)) result (kept_piece (seen piece.now) (reading_seen state.old)) }
{
    if state.text.bytes().len() + piece.bytes.len() > TEXT_LIMIT {
        return Err(Stopped::Broken {
            rule: 80,
            line: piece.line,
        });
    }
    add(&mut state.text, piece.bytes, piece.line)
}

/// The context of a use that stands in a file, at a line.
fn file_context(text: &Text, line: u32) -> Context
    requires { length text.now.bytes ≤ max_text }
    ensures { result ≡ record { own = true; outermost = line; room = max_text - length text.now.bytes } }
{
    Context {
        own: true,
        outermost: line,
        room: TEXT_LIMIT - text.bytes().len(),
    }
}

/// What a use in a file is expanded to, and how many uses there were with it.
#[derive(Debug, Drop)]
struct Expanded {
    bytes: Vec<u8>,
    uses: u32,
}

/// Expands a use in a file, and moves the place behind its arguments.
fn expand_use(
    alloc: Global,
    state: &State,
    piece: PieceRef,
    text: &[u8],
    cursor: &mut Cursor,
) -> Result<Expanded, Stopped>
    requires short { length state.now.text.bytes ≤ max_text }
    requires within { IsWithin text.now cursor.old }
    ensures fits { IfOk result (λ whole. length whole.bytes.items ≤ max_text - length state.now.text.bytes) }
    ensures inside { IsWithin text.now cursor.new }
    ensures forward { cursor.old.at ≤ cursor.new.at }
    ensures exact { Tells (λ whole. IsExpanded whole (left text.now cursor.old) (left text.now cursor.new)) result
        (use_of (nested max_nesting) (setting_of piece.entry.line (reading_seen state.now)) (seen piece.entry) (left text.now cursor.old) (record { bytes = []; uses = state.now.uses })) }
{
    let mut progress = Progress::new(alloc, state.uses);
    let context = file_context(&state.text, piece.line);
    let mut bytes = Vec::new(alloc);
    expand_word(
        &state.table,
        &mut progress,
        context,
        NESTING_LIMIT,
        piece,
        text,
        cursor,
        &mut bytes,
    )?;
    Ok(Expanded {
        bytes,
        uses: progress.uses,
    })
}

/// A use comes to the text, with the place of its backquote.
pub(crate) fn use_macro(
    alloc: Global,
    state: &mut State,
    piece: PieceRef,
    text: &[u8],
    cursor: &mut Cursor,
) -> Result<(), Stopped>
    requires fine { IsReading (reading_seen state.old) }
    requires within { IsWithin text.now cursor.old }
    requires line { piece.line ≤ most }
    ensures fine { OnOk result (IsReading (reading_seen state.new)) }
    ensures inside { IsWithin text.now cursor.new }
    ensures forward { cursor.old.at ≤ cursor.new.at }
    ensures exact { Tells (λ _. Takes (reading_seen state.new) (left text.now cursor.old) (left text.now cursor.new)) result
        (use_piece (seen piece.entry) (left text.now cursor.old) (reading_seen state.old)) }
{
    let whole = expand_use(alloc, state, piece, text, cursor)?;
    state.uses = whole.uses;
    add(&mut state.text, whole.bytes.as_slice(), piece.line)
}

/// From here on a macro is defined, by the line behind its directive.
pub(crate) fn define_macro(
    alloc: Global,
    state: &mut State,
    piece: PieceRef,
    text: &[u8],
    cursor: &mut Cursor,
) -> Result<(), Stopped>
    requires fine { IsReading (reading_seen state.old) }
    requires within { IsWithin text.now cursor.old }
    ensures fine { OnOk result (IsReading (reading_seen state.new)) }
    ensures inside { IsWithin text.now cursor.new }
    ensures forward { cursor.old.at ≤ cursor.new.at }
    ensures exact { Tells (λ _. Takes (reading_seen state.new) (left text.now cursor.old) (left text.now cursor.new)) result
        (define_piece (seen piece.entry) (left text.now cursor.old) (reading_seen state.old)) }
{
    let defined = define(alloc, text, cursor, piece.line)?;
    state.table.define(defined)
}

/// From here on a name is no macro.
pub(crate) fn undef_macro(
    state: &mut State,
    piece: PieceRef,
    text: &[u8],
    cursor: &mut Cursor,
) -> Result<(), Stopped>
    requires fine { IsReading (reading_seen state.old) }
    requires within { IsWithin text.now cursor.old }
    ensures fine { OnOk result (IsReading (reading_seen state.new)) }
    ensures inside { IsWithin text.now cursor.new }
    ensures forward { cursor.old.at ≤ cursor.new.at }
    ensures exact { Tells (λ _. Takes (reading_seen state.new) (left text.now cursor.old) (left text.now cursor.new)) result
        (undef_piece (seen piece.entry) (left text.now cursor.old) (reading_seen state.old)) }
{
    let name = operand(text, cursor, piece.line)?;
    state.table.undef(name);
    Ok(())
}

/// The net types that may be the default.
const NET_TYPES: [&str; 2] = ["wire", "none"];

/// Whether a name is one of those listed.
fn is_listed(name: &[u8], list: &[&str]) -> bool
    ensures { result ≡ list_any (λ listed. bytes_eq listed.now name.now) list.now }
{
    list.iter().any(|listed| listed.as_bytes() == name)
}

/// Whether a name is that of a net type that may be the default.
#[tactic(auto, unfolding(crate::specs::Files::is_nettype, crate::specs::Files::net_types))]
fn is_nettype(name: &[u8]) -> bool
    ensures { result ≡ is_nettype name.now }
{
    is_listed(name, &NET_TYPES)
}

/// A default net type is dropped.
pub(crate) fn drop_nettype(piece: PieceRef, text: &[u8], cursor: &mut Cursor) -> Result<(), Stopped>
    requires { IsWithin text.now cursor.old }
    ensures inside { IsWithin text.now cursor.new }
    ensures forward { cursor.old.at ≤ cursor.new.at }
    ensures exact { (reading : Reading) → Tells (λ _. Takes reading (left text.now cursor.old) (left text.now cursor.new)) result
        (nettype_piece (seen piece.entry) (left text.now cursor.old) reading) }
{
    if !is_nettype(operand(text, cursor, piece.line)?) {
        return Err(Stopped::Broken {
            rule: 11,
            line: piece.line,
        });
    }
    Ok(())
}
