//! The directives, their names, and what stands behind them on their line.
ghost use Rattle.std.specs.Prelude.{◌≡◌, ◌<◌, ◌≤◌, ℕ, Some, None, IfSome, IfNone, MatchOption, length, map, drop};
ghost use Rattle.vl_pre.specs.Pieces.{pieces_of};
ghost use Rattle.vl_pre.specs.Cursors.{left, seen, IsWithin};
ghost use Rattle.vl_pre.specs.Directives.{directive_of, listed_under, is_directive, is_stray, name_behind, string_behind};
ghost use Rattle.vl_pre.specs.Operands.{IsOperand};

use crate::pieces::{Cursor, Kind, Over, PieceRef, next_piece, skip};

/// A directive, by what it does.
#[derive(Clone, Copy, Debug, PartialEq, Eq)]
pub(crate) enum Directive {
    Define,
    Undef,
    Ifdef,
    Ifndef,
    Elsif,
    Else,
    Endif,
    Include,
    Timescale,
    DefaultNettype,
    /// One that is dropped and has nothing behind it.
    Bare,
}

/// The directives by their names.
const DIRECTIVES: [(&str, Directive); 13] = [
    ("define", Directive::Define),
    ("undef", Directive::Undef),
    ("ifdef", Directive::Ifdef),
    ("ifndef", Directive::Ifndef),
    ("elsif", Directive::Elsif),
    ("else", Directive::Else),
    ("endif", Directive::Endif),
    ("include", Directive::Include),
    ("timescale", Directive::Timescale),
    ("default_nettype", Directive::DefaultNettype),
    ("celldefine", Directive::Bare),
    ("endcelldefine", Directive::Bare),
    ("resetall", Directive::Bare),
];

/// The directive of a name in a list.
fn listed(list: &[(&str, Directive)], name: &[u8]) -> Option<Directive>
    ensures { result ≡ listed_under name.now (map (λ d. (d.0.now, d.1)) list.now) }
{
    for (word, directive) in list {
        if word.as_bytes() == name {
            return Some(*directive);
        }
    }
    None
}

/// The directive of a name.
#[tactic(auto, unfolding(crate::specs::Directives::directive_of, crate::specs::Directives::directive_names))]
pub(crate) fn directive_of(name: &[u8]) -> Option<Directive>
    ensures { result ≡ directive_of name.now }
{
    listed(&DIRECTIVES, name)
}

/// Whether a name is a directive's.
pub fn is_directive(name: &[u8]) -> bool
    ensures { result ≡ is_directive name.now }
{
    directive_of(name).is_some()
}

/// Whether a piece can't stand in a macro's text or argument.
pub(crate) fn is_stray(piece: &PieceRef) -> bool
    ensures { result ≡ is_stray (seen piece.now) }
{
    match piece.kind {
        Kind::Word => is_directive(piece.word()),
        Kind::Backquote => true,
        Kind::Identifier | Kind::Quoted | Kind::Single(_) => false,
    }
}

/// The identifier behind blanks alone, which the place moves behind.
pub(crate) fn name_behind<'a>(text: &'a [u8], cursor: &mut Cursor) -> Option<&'a [u8]>
    requires { IsWithin text.now cursor.old }
    ensures within { IsWithin text.now cursor.new }
    ensures forward { cursor.old.at ≤ cursor.new.at }
    ensures exact { MatchOption result (name_behind (left text.now cursor.old) ≡ None)
        (λ name. IsOperand (name_behind (left text.now cursor.old)) name.now (left text.now cursor.old) (left text.now cursor.new)) }
{
    skip(text, cursor, Over::Blanks);
    match next_piece(text, cursor) {
        Some(piece) if piece.is_identifier() => Some(piece.bytes),
        _ => None,
    }
}

/// What stands in the string behind blanks alone, which the place moves behind.
pub(crate) fn string_behind<'a>(text: &'a [u8], cursor: &mut Cursor) -> Option<&'a [u8]>
    requires { IsWithin text.now cursor.old }
    ensures within { IsWithin text.now cursor.new }
    ensures forward { cursor.old.at ≤ cursor.new.at }
    ensures exact { MatchOption result (string_behind (left text.now cursor.old) ≡ None)
        (λ string. IsOperand (string_behind (left text.now cursor.old)) string.now (left text.now cursor.old) (left text.now cursor.new)) }
{
    skip(text, cursor, Over::Blanks);
    match next_piece(text, cursor) {
        Some(piece) if piece.is_quoted() => Some(piece.quoted()),
        _ => None,
    }
}
