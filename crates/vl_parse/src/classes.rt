//! What single tokens begin.
ghost use Rattle.std.specs.Prelude.{◌≡◌, ◌≢◌, ◌<◌, ◌^◌, ◌-◌, ◌+◌, slice_get, OnSome};
ghost use Rattle.vl_expr.specs.Classes.{is_in, is_at};
ghost use Rattle.vl_tree.specs.declared.terminals.Terminal.TheVariants as lex;
ghost use Rattle.vl_parse.specs.Statements.{opening_of, edge_of};
ghost use Rattle.vl_parse.specs.Routines.{direction_of, word_of, sign_of};
ghost use Rattle.vl_parse.specs.Modules.{item_start};

use crate::input::Input;
use vl_expr::is_name;
use vl_tree::{Direction, Edge, IntWord, ParamWord, Sign, Terminal};

/// Whether a token is this one.
pub fn is(found: Option<Terminal>, terminal: Terminal) -> bool
    ensures { result ≡ is_in found terminal }
{
    match found {
        Some(found) => found == terminal,
        None => false,
    }
}

/// What a token begins as the first of a statement.
#[derive(Clone, Copy, Debug, PartialEq, Eq)]
pub enum Opening {
    Null,
    /// An assignment to a concatenation.
    Assign,
    /// An assignment or an enable.
    Name,
    If,
    Case,
    For,
    While,
    Repeat,
    Forever,
    Block,
    Wait,
    Disable,
    Nothing,
}

fn opened_by(first: Option<Terminal>) -> Opening
    ensures { result ≡ opening_of first }
{
    match first {
        Some(Terminal::Semicolon) => Opening::Null,
        Some(Terminal::If) => Opening::If,
        Some(Terminal::Case) => Opening::Case,
        Some(Terminal::For) => Opening::For,
        Some(Terminal::While) => Opening::While,
        Some(Terminal::Repeat) => Opening::Repeat,
        Some(Terminal::Forever) => Opening::Forever,
        Some(Terminal::Begin) => Opening::Block,
        Some(Terminal::AtSign) => Opening::Wait,
        Some(Terminal::Disable) => Opening::Disable,
        Some(Terminal::OpenBrace) => Opening::Assign,
        Some(terminal) if is_name(terminal) => Opening::Name,
        _ => Opening::Nothing,
    }
}

fn edge(terminal: Option<Terminal>) -> Option<Edge>
    ensures { result ≡ edge_of terminal }
{
    match terminal {
        Some(Terminal::Posedge) => Some(Edge::Posedge),
        Some(Terminal::Negedge) => Some(Edge::Negedge),
        _ => None,
    }
}

pub fn direction(terminal: Option<Terminal>) -> Option<Direction>
    ensures { result ≡ direction_of terminal }
{
    match terminal {
        Some(Terminal::Input) => Some(Direction::Input),
        Some(Terminal::Output) => Some(Direction::Output),
        _ => None,
    }
}

fn int_word(terminal: Option<Terminal>) -> Option<IntWord>
    ensures { result ≡ word_of terminal }
{
    match terminal {
        Some(Terminal::Byte) => Some(IntWord::Byte),
        Some(Terminal::Shortint) => Some(IntWord::Shortint),
        Some(Terminal::Int) => Some(IntWord::Int),
        Some(Terminal::Longint) => Some(IntWord::Longint),
        _ => None,
    }
}

pub fn sign(terminal: Option<Terminal>) -> Option<Sign>
    ensures { result ≡ sign_of terminal }
{
    match terminal {
        Some(Terminal::Signed) => Some(Sign::Signed),
        Some(Terminal::Unsigned) => Some(Sign::Unsigned),
        _ => None,
    }
}

/// What a token begins as the first of an item.
#[derive(Clone, Copy, Debug, PartialEq, Eq)]
pub enum ItemStart {
    Params(ParamWord),
    Wires,
    Regs,
    Integers,
    Assigns,
    Always,
    Initial,
    Task,
    Function,
    Import,
    Instances,
    Nothing,
}

/// `import` begins an import only before the string of one, and is a name elsewhere.
fn item_start(first: Option<Terminal>, dpi: bool) -> ItemStart
    ensures { result ≡ item_start first dpi }
{
    match first {
        Some(Terminal::Parameter) => ItemStart::Params(ParamWord::Parameter),
        Some(Terminal::Localparam) => ItemStart::Params(ParamWord::Localparam),
        Some(Terminal::Wire) => ItemStart::Wires,
        Some(Terminal::Reg) => ItemStart::Regs,
        Some(Terminal::Integer) => ItemStart::Integers,
        Some(Terminal::Assign) => ItemStart::Assigns,
        Some(Terminal::Always) => ItemStart::Always,
        Some(Terminal::Initial) => ItemStart::Initial,
        Some(Terminal::Task) => ItemStart::Task,
        Some(Terminal::Function) => ItemStart::Function,
        Some(Terminal::Import) if dpi => ItemStart::Import,
        Some(terminal) if is_name(terminal) => ItemStart::Instances,
        _ => ItemStart::Nothing,
    }
}

/// What a token begins as the first of a statement.
pub fn opening_at(input: &Input<'_>, at: u32) -> Opening
    ensures value { result ≡ opening_of (slice_get input.now.terminals at) }
    ensures within { result ≢ Opening.Nothing → at < 2 ^ 32 - 2 }
{
    match input.get(at) {
        Some(terminal) => opened_by(Some(terminal)),
        None => Opening::Nothing,
    }
}

pub fn edge_at(input: &Input<'_>, at: u32) -> Option<Edge>
    ensures { result ≡ edge_of (slice_get input.now.terminals at) }
{
    edge(input.get(at))
}

pub fn direction_at(input: &Input<'_>, at: u32) -> Option<Direction>
    ensures value { result ≡ direction_of (slice_get input.now.terminals at) }
    ensures within { OnSome result (at < 2 ^ 32 - 2) }
{
    match input.get(at) {
        Some(terminal) => direction(Some(terminal)),
        None => None,
    }
}

pub fn int_word_at(input: &Input<'_>, at: u32) -> Option<IntWord>
    ensures value { result ≡ word_of (slice_get input.now.terminals at) }
    ensures within { OnSome result (at < 2 ^ 32 - 2) }
{
    match input.get(at) {
        Some(terminal) => int_word(Some(terminal)),
        None => None,
    }
}

pub fn sign_at(input: &Input<'_>, at: u32) -> Option<Sign>
    ensures value { result ≡ sign_of (slice_get input.now.terminals at) }
    ensures within { OnSome result (at < 2 ^ 32 - 2) }
{
    match input.get(at) {
        Some(terminal) => sign(Some(terminal)),
        None => None,
    }
}

/// What a token begins as the first of an item.
pub fn item_start_at(input: &Input<'_>, at: u32) -> ItemStart
    ensures value { result ≡ item_start (slice_get input.now.terminals at) (is_at input.now.terminals (at + 1) lex.Dpi) }
    ensures within { result ≢ ItemStart.Nothing → at < 2 ^ 32 - 2 }
{
    match input.get(at) {
        Some(terminal) => item_start(Some(terminal), input.is_at(at + 1, Terminal::Dpi)),
        None => ItemStart::Nothing,
    }
}
