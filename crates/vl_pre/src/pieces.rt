//! The pieces of a text: words behind backquotes, identifiers, strings and single bytes.
ghost use Rattle.std.specs.Prelude.{◌≡◌, ◌<◌, ◌≤◌, ◌+◌, ◌-◌, ◌∷◌, ◌^◌, [], ℕ, if◌then◌else◌, Some, None, IfSome, IfNone, length, drop, take, slice_range, slice_index};
ghost use Rattle.std.specs.List.{prefix_len};
ghost use Rattle.xt_base.specs.Identifiers.{begins_word, is_in_word};
ghost use Rattle.vl_pre.specs.Signs.{is_blank};
ghost use Rattle.vl_pre.specs.Pieces.{is_at_word, is_inside, is_closed, kind_at, further, end_at, is_byte, is_blank_piece, is_space, is_identifier, is_quoted, word_of, quoted_of};
ghost use Rattle.vl_pre.specs.Cursors.{left, seen, passes, IsWithin};

use crate::text::next_line;
use xt_base::{begins_word, is_in_word};

/// What a piece of a text is.
#[derive(Clone, Copy, Debug, PartialEq, Eq)]
pub(crate) enum Kind {
    /// A backquote and an identifier.
    Word,
    /// A backquote without an identifier.
    Backquote,
    Identifier,
    Quoted,
    Single(u8),
}

/// Whether a byte is a blank; a line feed is none.
pub(crate) fn is_blank(byte: u8) -> bool
    ensures { result ≡ is_blank byte }
{
    byte == 9 || byte == 12 || byte == 13 || byte == 32
}

/// Whether a byte stands in a string.
fn is_inside(byte: u8) -> bool
    ensures { result ≡ is_inside byte }
{
    byte != b'"' && byte != b'\n'
}

/// How long the identifier goes on.
fn word_length(bytes: &[u8]) -> usize
    ensures length { result ≡ prefix_len is_in_word bytes.now }
    ensures within { result ≤ length bytes.now }
{
    bytes.iter().take_while(|byte| is_in_word(**byte)).count()
}

/// How long the string goes on.
fn inside_length(bytes: &[u8]) -> usize
    ensures length { result ≡ prefix_len is_inside bytes.now }
    ensures within { result ≤ length bytes.now }
{
    bytes.iter().take_while(|byte| is_inside(**byte)).count()
}

/// Whether an identifier begins here.
fn is_at_word(bytes: &[u8]) -> bool
    ensures { result ≡ is_at_word bytes.now }
{
    match bytes.first() {
        Some(byte) => begins_word(*byte),
        None => false,
    }
}

/// Whether a string that began is ended on its line.
fn is_closed(bytes: &[u8]) -> bool
    ensures { result ≡ is_closed bytes.now }
{
    match bytes[inside_length(bytes)..].first() {
        Some(byte) => *byte == b'"',
        None => false,
    }
}

/// What a piece is that begins with a byte.
fn kind_at(byte: u8, bytes: &[u8]) -> Kind
    ensures { result ≡ kind_at byte bytes.now }
{
    if byte == b'`' {
        return kind_of_backquote(bytes);
    }
    if begins_word(byte) {
        return Kind::Identifier;
    }
    if byte == b'"' && is_closed(bytes) {
        return Kind::Quoted;
    }
    Kind::Single(byte)
}

/// What a piece is that begins with a backquote.
fn kind_of_backquote(bytes: &[u8]) -> Kind
    ensures { result ≡ (if is_at_word bytes.now then Kind.Word else Kind.Backquote) }
{
    if is_at_word(bytes) {
        Kind::Word
    } else {
        Kind::Backquote
    }
}

/// How many bytes belong to a piece behind its first.
fn further(kind: Kind, bytes: &[u8]) -> usize
    requires { length bytes.now < 2 ^ 32 }
    ensures { result ≡ further kind bytes.now }
{
    match kind {
        Kind::Word | Kind::Identifier => word_length(bytes),
        Kind::Quoted => inside_length(bytes) + 1,
        Kind::Backquote | Kind::Single(_) => 0,
    }
}

/// A place in a text, and its line.
#[derive(Clone, Copy, Debug)]
pub(crate) struct Cursor {
    pub(crate) at: usize,
    pub(crate) line: u32,
}

/// A piece of a text.
#[derive(Clone, Copy, Debug)]
pub(crate) struct PieceRef<'a> {
    pub(crate) line: u32,
    pub(crate) kind: Kind,
    pub(crate) bytes: &'a [u8],
}

impl<'a> PieceRef<'a> {
    /// Whether it is this single byte.
    pub(crate) fn is_byte(&self, sign: u8) -> bool
        ensures { result ≡ is_byte sign (seen self.now) }
    {
        match self.kind {
            Kind::Single(byte) => byte == sign,
            Kind::Word | Kind::Backquote | Kind::Identifier | Kind::Quoted => false,
        }
    }

    /// Whether it is a blank.
    pub(crate) fn is_blank(&self) -> bool
        ensures { result ≡ is_blank_piece (seen self.now) }
    {
        match self.kind {
            Kind::Single(byte) => is_blank(byte),
            Kind::Word | Kind::Backquote | Kind::Identifier | Kind::Quoted => false,
        }
    }

    /// Whether it is a blank or the end of a line.
    pub(crate) fn is_space(&self) -> bool
        ensures { result ≡ is_space (seen self.now) }
    {
        match self.kind {
            Kind::Single(byte) => is_blank(byte) || byte == b'\n',
            Kind::Word | Kind::Backquote | Kind::Identifier | Kind::Quoted => false,
        }
    }

    /// Whether it is an identifier.
    pub(crate) fn is_identifier(&self) -> bool
        ensures { result ≡ is_identifier (seen self.now) }
    {
        match self.kind {
            Kind::Identifier => true,
            Kind::Word | Kind::Backquote | Kind::Quoted | Kind::Single(_) => false,
        }
    }

    /// Whether it is a string.
    pub(crate) fn is_quoted(&self) -> bool
        ensures { result ≡ is_quoted (seen self.now) }
    {
        match self.kind {
            Kind::Quoted => true,
            Kind::Word | Kind::Backquote | Kind::Identifier | Kind::Single(_) => false,
        }
    }

    /// The word behind the backquote.
    pub(crate) fn word(&self) -> &'a [u8]
        ensures { result.now ≡ word_of (seen self.now) }
    {
        match self.bytes.split_first() {
            Some((_, word)) => word,
            None => self.bytes,
        }
    }

    /// What stands in the string.
    pub(crate) fn quoted(&self) -> &'a [u8]
        ensures { result.now ≡ quoted_of (seen self.now) }
    {
        if self.bytes.len() < 2 {
            return &self.bytes[..0];
        }
        &self.bytes[1..self.bytes.len() - 1]
    }
}

/// What is passed over on the way to a piece.
#[derive(Clone, Copy, Debug)]
pub(crate) enum Over {
    Blanks,
    Spaces,
    Returns,
    RestOfLine,
}

impl Over {
    /// Whether a piece is passed over.
    pub(crate) fn passes(self, piece: &PieceRef) -> bool
        ensures { result ≡ passes self (seen piece.now) }
    {
        match self {
            Over::Blanks => piece.is_blank(),
            Over::Spaces => piece.is_space(),
            Over::Returns => piece.is_byte(b'\r'),
            Over::RestOfLine => !piece.is_byte(b'\n'),
        }
    }
}

/// What the piece at a place is, and where it ends.
#[tactic(auto, using(crate::proofs::PieceLemmas::further_within), unfolding(crate::specs::Pieces::end_at))]
fn piece_from(text: &[u8], at: usize) -> (Kind, usize)
    requires inside { at < length text.now }
    requires size { length text.now < 2 ^ 32 }
    ensures kind { result.0 ≡ kind_at (slice_index text.now at) (drop (at + 1) text.now) }
    ensures end { result.1 ≡ end_at text.now at }
    ensures within { result.1 ≤ length text.now }
    ensures after { at < result.1 }
{
    let rest = &text[at + 1..];
    let kind = kind_at(text[at], rest);
    (kind, at + 1 + further(kind, rest))
}

/// The piece at a place, which moves behind it; None exactly at the end of the text.
#[tactic(auto, using(crate::proofs::PieceLemmas::first_piece))]
pub(crate) fn next_piece<'a>(text: &'a [u8], cursor: &mut Cursor) -> Option<PieceRef<'a>>
    requires { IsWithin text.now cursor.old }
    ensures within { IsWithin text.now cursor.new }
    ensures none { IfNone result (left text.now cursor.old ≡ []) }
    ensures stays { IfNone result (cursor.new ≡ cursor.old) }
    ensures some { IfSome result (λ piece. left text.now cursor.old ≡ seen piece ∷ left text.now cursor.new) }
    ensures forward { IfSome result (λ piece. cursor.old.at < cursor.new.at) }
    ensures bytes { IfSome result (λ piece. piece.bytes.now ≡ slice_range text.now cursor.old.at cursor.new.at) }
    ensures line { IfSome result (λ piece. piece.line ≡ cursor.old.line) }
{
    let Cursor { at, line } = *cursor;
    if at >= text.len() {
        return None;
    }
    let (kind, end) = piece_from(text, at);
    *cursor = Cursor {
        at: end,
        line: next_line(text[at], line),
    };
    Some(PieceRef {
        line,
        kind,
        bytes: &text[at..end],
    })
}

/// Moves a place behind all pieces that are passed over.
pub(crate) fn skip(text: &[u8], cursor: &mut Cursor, over: Over)
    requires { IsWithin text.now cursor.old }
    ensures within { IsWithin text.now cursor.new }
    ensures left { left text.now cursor.new ≡ drop (prefix_len (passes over) (left text.now cursor.old)) (left text.now cursor.old) }
    ensures forward { cursor.old.at ≤ cursor.new.at }
{
    loop {
        let mut ahead = *cursor;
        match next_piece(text, &mut ahead) {
            Some(piece) if over.passes(&piece) => *cursor = ahead,
            _ => return,
        }
    }
}
