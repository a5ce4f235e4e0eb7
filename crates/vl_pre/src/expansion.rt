//! The expansion of a text: uses of macros in it, in their arguments and in their texts.
ghost use Rattle.std.specs.Prelude.{◌≡◌, ◌≤◌, ◌+◌, ◌++◌, ◌∷◌, [], ℕ, Some, None, Ok, Err, OnOk, IfErr, map, length, if◌then◌else◌};
ghost use Rattle.std.specs.List.{All};
ghost use Rattle.vl_pre.specs.Cursors.{left, seen, IsWithin};
ghost use Rattle.vl_pre.specs.Pieces.{pieces_of, word_of};
ghost use Rattle.vl_pre.specs.Macros.{text_of};
ghost use Rattle.vl_pre.specs.MacroViews.{names_seen, macro_seen};
ghost use Rattle.vl_pre.specs.Uses.{told, surrounded, given_from, used, use_of, nested, expansion, piece_expansion};
ghost use Rattle.vl_pre.specs.Expanding.{argument_pieces, IsInside, setting_seen, expansion_seen, expander, Leaves, HasTexts};
ghost use Rattle.vl_pre.specs.Gives.{Gives, Stops, Tells};

use crate::arguments::arguments;
use crate::directives::is_stray;
use crate::macros::{Macro, is_among, push_name};
use crate::pieces::{Cursor, Kind, PieceRef, next_piece};
use crate::stopped::Stopped;
use crate::substitution::substitute;
use crate::table::Table;
use crate::uses::{Argument, Context, Progress, TEXT_LIMIT};

/// Expands the pieces of a text from a place on, in which `depth` uses may stand in one another.
#[cycle(expansion)]
pub(crate) fn expand_text(
    table: &Table,
    progress: &mut Progress,
    context: Context,
    depth: u32,
    text: &[u8],
    start: Cursor,
    bytes: &mut Vec<u8>,
) -> Result<(), Stopped>
    requires within { IsWithin text.now start }
    requires fits { length bytes.old.items ≤ context.room }
    ensures fits { OnOk result (length bytes.new.items ≤ context.room) }
    ensures exact { Gives (λ _. expansion_seen bytes.new progress.new) result
        (expander depth (setting_seen table.now progress.old context) (left text.now start) (expansion_seen bytes.old progress.old)) }
    ensures within { OnOk result (names_seen progress.new.forbidden.items ≡ names_seen progress.old.forbidden.items) }
{
    let mut cursor = start;
    while let Some(piece) = next_piece(text, &mut cursor) {
        expand_piece(
            table,
            progress,
            context,
            depth,
            piece,
            text,
            &mut cursor,
            bytes,
        )?;
    }
    Ok(())
}

/// Expands a piece, and moves the place behind what belongs to it.
#[cycle(expansion)]
fn expand_piece(
    table: &Table,
    progress: &mut Progress,
    context: Context,
    depth: u32,
    piece: PieceRef,
    text: &[u8],
    cursor: &mut Cursor,
    bytes: &mut Vec<u8>,
) -> Result<(), Stopped>
    requires within { IsWithin text.now cursor.old }
    requires fits { length bytes.old.items ≤ context.room }
    ensures fits { OnOk result (length bytes.new.items ≤ context.room) }
    ensures exact { Tells (λ _. Leaves (expansion_seen bytes.new progress.new) (left text.now cursor.old) (left text.now cursor.new)) result
        (piece_expansion (nested depth) (setting_seen table.now progress.old context) (seen piece.entry) (left text.now cursor.old) (expansion_seen bytes.old progress.old)) }
    ensures within { OnOk result (names_seen progress.new.forbidden.items ≡ names_seen progress.old.forbidden.items) }
    ensures inside { IsWithin text.now cursor.new }
    ensures forward { cursor.old.at ≤ cursor.new.at }
{
    if is_stray(&piece) {
        return Err(Stopped::Broken {
            rule: 11,
            line: context.told(piece.line),
        });
    }
    match piece.kind {
        Kind::Word => expand_word(table, progress, context, depth, piece, text, cursor, bytes),
        Kind::Single(b'\n') => context.add(bytes, b" "),
        Kind::Backquote | Kind::Identifier | Kind::Quoted | Kind::Single(_) => context.add(
            bytes,
            piece.bytes,
        ),
    }
}

/// Expands a word behind a backquote, and moves the place behind its arguments.
#[cycle(expansion)]
#[tactic(auto, unfolding(crate::specs::Uses::nested))]
pub(crate) fn expand_word(
    table: &Table,
    progress: &mut Progress,
    context: Context,
    depth: u32,
    piece: PieceRef,
    text: &[u8],
    cursor: &mut Cursor,
    bytes: &mut Vec<u8>,
) -> Result<(), Stopped>
    requires within { IsWithin text.now cursor.old }
    requires fits { length bytes.old.items ≤ context.room }
    ensures fits { OnOk result (length bytes.new.items ≤ context.room) }
    ensures exact { Tells (λ _. Leaves (expansion_seen bytes.new progress.new) (left text.now cursor.old) (left text.now cursor.new)) result
        (use_of (nested depth) (setting_seen table.now progress.old context) (seen piece.entry) (left text.now cursor.old) (expansion_seen bytes.old progress.old)) }
    ensures within { OnOk result (names_seen progress.new.forbidden.items ≡ names_seen progress.old.forbidden.items) }
    ensures inside { IsWithin text.now cursor.new }
    ensures forward { cursor.old.at ≤ cursor.new.at }
{
    let Some(meaning) = table.get(piece.word()) else {
        return Err(Stopped::Broken {
            rule: 11,
            line: context.told(piece.line),
        });
    };
    if is_among(&progress.forbidden, piece.word()) {
        return context.broken(12);
    }
    if depth == 0 {
        return Err(Stopped::Broken {
            rule: 80,
            line: context.told(piece.line),
        });
    }
    expand_use(
        table,
        progress,
        context,
        depth - 1,
        piece,
        meaning,
        text,
        cursor,
        bytes,
    )
}

/// Expands a use of a macro, in whose arguments and text `depth` more may stand in one another.
#[cycle(expansion)]
fn expand_use(
    table: &Table,
    progress: &mut Progress,
    context: Context,
    depth: u32,
    piece: PieceRef,
    meaning: &Macro,
    text: &[u8],
    cursor: &mut Cursor,
    bytes: &mut Vec<u8>,
) -> Result<(), Stopped>
    requires within { IsWithin text.now cursor.old }
    requires fits { length bytes.old.items ≤ context.room }
    ensures fits { OnOk result (length bytes.new.items ≤ context.room) }
    ensures exact { Tells (λ _. Leaves (expansion_seen bytes.new progress.new) (left text.now cursor.old) (left text.now cursor.new)) result
        (used (expander depth) (setting_seen table.now progress.old context) (word_of (seen piece.entry)) (macro_seen meaning.now) piece.entry.line (left text.now cursor.old) (expansion_seen bytes.old progress.old)) }
    ensures within { OnOk result (names_seen progress.new.forbidden.items ≡ names_seen progress.old.forbidden.items) }
    ensures inside { IsWithin text.now cursor.new }
    ensures forward { cursor.old.at ≤ cursor.new.at }
{
    let read = arguments(*bytes.allocator(), context, &meaning.formals, text, cursor)?;
    progress.uses = context.count(piece.line, progress.uses)?;
    let given = expand_given(table, progress, context, depth, text, &read)?;
    expand_meaning(
        table,
        progress,
        context,
        depth,
        piece.word(),
        meaning,
        &given,
        bytes,
    )
}

/// Expands each argument of a use, as a text of its own.
#[cycle(expansion)]
fn expand_given(
    table: &Table,
    progress: &mut Progress,
    context: Context,
    depth: u32,
    text: &[u8],
    read: &Vec<Argument>,
) -> Result<Vec<Vec<u8>>, Stopped>
    requires { All (IsInside text.now) read.now.items }
    ensures exact { Tells (λ given. HasTexts (names_seen given.items) progress.new.uses) result
        (given_from (expander depth) (setting_seen table.now progress.old context) (record { texts = []; uses = progress.old.uses }) (map (argument_pieces text.now) read.now.items)) }
    ensures within { OnOk result (names_seen progress.new.forbidden.items ≡ names_seen progress.old.forbidden.items) }
{
    let mut given = Vec::new(*read.allocator());
    for argument in read {
        let mut bytes = Vec::new(*read.allocator());
        let own = Context {
            room: TEXT_LIMIT,
            ..context
        };
        expand_text(
            table,
            progress,
            own,
            depth,
            &text[..argument.end],
            argument.start,
            &mut bytes,
        )?;
        given.push(bytes)?;
    }
    Ok(given)
}

/// Expands the text of a use with its arguments.
#[cycle(expansion)]
fn expand_meaning(
    table: &Table,
    progress: &mut Progress,
    context: Context,
    depth: u32,
    name: &[u8],
    meaning: &Macro,
    given: &Vec<Vec<u8>>,
    bytes: &mut Vec<u8>,
) -> Result<(), Stopped>
    requires { length bytes.old.items ≤ context.room }
    ensures fits { OnOk result (length bytes.new.items ≤ context.room) }
    ensures exact { Gives (λ _. expansion_seen bytes.new progress.new) result
        (surrounded (expander depth) (setting_seen table.now progress.old context) name.now (text_of (macro_seen meaning.now) (names_seen given.now.items)) (expansion_seen bytes.old progress.old)) }
    ensures within { OnOk result (names_seen progress.new.forbidden.items ≡ names_seen progress.old.forbidden.items) }
{
    match &meaning.formals {
        None => surround(
            table,
            progress,
            context,
            depth,
            name,
            meaning.text.as_slice(),
            bytes,
        ),
        Some(formals) => {
            let text = substitute(
                *bytes.allocator(),
                context,
                formals,
                given,
                meaning.text.as_slice(),
            )?;
            surround(
                table,
                progress,
                context,
                depth,
                name,
                text.as_slice(),
                bytes,
            )
        }
    }
}

/// Expands the text of a use with a blank on each side, in which its macro is forbidden.
#[cycle(expansion)]
fn surround(
    table: &Table,
    progress: &mut Progress,
    context: Context,
    depth: u32,
    name: &[u8],
    text: &[u8],
    bytes: &mut Vec<u8>,
) -> Result<(), Stopped>
    requires { length bytes.old.items ≤ context.room }
    ensures fits { OnOk result (length bytes.new.items ≤ context.room) }
    ensures exact { Gives (λ _. expansion_seen bytes.new progress.new) result
        (surrounded (expander depth) (setting_seen table.now progress.old context) name.now text.now (expansion_seen bytes.old progress.old)) }
    ensures within { OnOk result (names_seen progress.new.forbidden.items ≡ names_seen progress.old.forbidden.items) }
{
    if text.len() > TEXT_LIMIT {
        return context.broken(80);
    }
    context.add(bytes, b" ")?;
    push_name(&mut progress.forbidden, name)?;
    let inner = Context {
        own: false,
        ..context
    };
    expand_text(
        table,
        progress,
        inner,
        depth,
        text,
        Cursor { at: 0, line: 0 },
        bytes,
    )?;
    let _ = progress.forbidden.pop();
    context.add(bytes, b" ")
}
