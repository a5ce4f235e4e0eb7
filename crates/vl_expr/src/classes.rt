//! What single tokens are to the reader of expressions.
ghost use Rattle.std.specs.Prelude.{◌≡◌, ◌≢◌, ◌<◌, ◌^◌, ◌-◌, slice_get, length, IsTrue, OnSome, OnOk, MatchResult, true, false};
ghost use Rattle.vl_tree.specs.Operators.{unary, binary};
ghost use Rattle.vl_tree.specs.Places.{is_name};
ghost use Rattle.vl_tree.specs.Expressions.{ends_expr};
ghost use Rattle.vl_expr.specs.Classes.{start_of, operator_of, between_of, is_at, unary_of, of_layer};

use crate::found::ParseError;
use vl_tree::{BinOp, Sign, Terminal, UnOp};

/// What a token begins as the first of a primary.
#[derive(Clone, Copy, Debug, PartialEq, Eq)]
pub enum Start {
    Decimal,
    Based,
    Name,
    Sign(Sign),
    Paren,
    Brace,
    Nothing,
}

/// What stands between the two expressions of a part select.
#[derive(Clone, Copy, Debug, PartialEq, Eq)]
pub enum Between {
    Colon,
    PlusColon,
    MinusColon,
}

/// Whether the token at a place is this one.
pub fn is_at(terminals: &[Terminal], at: u32, terminal: Terminal) -> bool
    ensures value { result ≡ is_at terminals.now at terminal }
    ensures within { IsTrue result → at < length terminals.now }
{
    match terminals.get(at as usize) {
        Some(found) => *found == terminal,
        None => false,
    }
}

/// That the token at a place is this one.
pub fn expect(terminals: &[Terminal], at: u32, terminal: Terminal) -> Result<(), ParseError>
    ensures value { MatchResult result (λ _. is_at terminals.now at terminal ≡ true)
        (λ e. (e ≡ ParseError.NoTree at) × (is_at terminals.now at terminal ≡ false)) }
    ensures within { OnOk result (at < length terminals.now) }
{
    if is_at(terminals, at, terminal) {
        Ok(())
    } else {
        Err(ParseError::NoTree { at })
    }
}

/// Whether a token is an identifier.
pub fn is_name(terminal: Terminal) -> bool
    ensures { result ≡ is_name terminal }
{
    matches!(
        &terminal,
        Terminal::Identifier
            | Terminal::Import
            | Terminal::Context
            | Terminal::Void
            | Terminal::Bit
            | Terminal::Byte
            | Terminal::Shortint
            | Terminal::Int
            | Terminal::Longint
    )
}

fn unary(terminal: Terminal) -> Option<UnOp>
    ensures { result ≡ unary terminal }
{
    match terminal {
        Terminal::Plus => Some(UnOp::Plus),
        Terminal::Minus => Some(UnOp::Minus),
        Terminal::Bang => Some(UnOp::Not),
        Terminal::Tilde => Some(UnOp::Inv),
        Terminal::Ampersand => Some(UnOp::And),
        Terminal::TildeAmpersand => Some(UnOp::Nand),
        Terminal::Bar => Some(UnOp::Or),
        Terminal::TildeBar => Some(UnOp::Nor),
        Terminal::Caret => Some(UnOp::Xor),
        Terminal::TildeCaret => Some(UnOp::Xnor),
        _ => None,
    }
}

/// The operator that the token at a place is before an operand.
pub fn unary_at(terminals: &[Terminal], at: u32) -> Option<UnOp>
    ensures value { result ≡ unary_of (slice_get terminals.now at) }
    ensures within { OnSome result (at < length terminals.now) }
{
    match terminals.get(at as usize) {
        Some(terminal) => unary(*terminal),
        None => None,
    }
}

/// What the token at a place begins as the first of a primary.
pub fn start_at(terminals: &[Terminal], at: u32) -> Start
    ensures value { result ≡ start_of (slice_get terminals.now at) }
    ensures within { result ≢ Start.Nothing → at < length terminals.now }
{
    match terminals.get(at as usize) {
        Some(Terminal::Decimal) => Start::Decimal,
        Some(Terminal::Based) => Start::Based,
        Some(Terminal::ToSigned) => Start::Sign(Sign::Signed),
        Some(Terminal::ToUnsigned) => Start::Sign(Sign::Unsigned),
        Some(Terminal::OpenParen) => Start::Paren,
        Some(Terminal::OpenBrace) => Start::Brace,
        Some(terminal) if is_name(*terminal) => Start::Name,
        _ => Start::Nothing,
    }
}

/// The operator that a token is between operands, and its layer from 1, the tightest, to 10.
fn binary(terminal: Terminal) -> Option<(u32, BinOp)>
    ensures { result ≡ binary terminal }
{
    match terminal {
        Terminal::Star => Some((1, BinOp::Mul)),
        Terminal::Slash => Some((1, BinOp::Div)),
        Terminal::Percent => Some((1, BinOp::Rem)),
        Terminal::Plus => Some((2, BinOp::Add)),
        Terminal::Minus => Some((2, BinOp::Sub)),
        Terminal::ShiftLeft => Some((3, BinOp::Shl)),
        Terminal::ShiftRight => Some((3, BinOp::Shr)),
        Terminal::ArithmeticLeft => Some((3, BinOp::Ashl)),
        Terminal::ArithmeticRight => Some((3, BinOp::Ashr)),
        Terminal::Less => Some((4, BinOp::Lt)),
        Terminal::LessEqual => Some((4, BinOp::Le)),
        Terminal::Greater => Some((4, BinOp::Gt)),
        Terminal::GreaterEqual => Some((4, BinOp::Ge)),
        Terminal::Equal => Some((5, BinOp::Eq)),
        Terminal::NotEqual => Some((5, BinOp::Ne)),
        Terminal::CaseEqual => Some((5, BinOp::CaseEq)),
        Terminal::CaseNotEqual => Some((5, BinOp::CaseNe)),
        Terminal::Ampersand => Some((6, BinOp::And)),
        Terminal::Caret => Some((7, BinOp::Xor)),
        Terminal::TildeCaret => Some((7, BinOp::Xnor)),
        Terminal::Bar => Some((8, BinOp::Or)),
        Terminal::DoubleAmpersand => Some((9, BinOp::LogAnd)),
        Terminal::DoubleBar => Some((10, BinOp::LogOr)),
        _ => None,
    }
}

fn operator(layer: u32, terminal: Terminal) -> Option<BinOp>
    requires { layer < 2 ^ 32 - 1 }
    ensures { result ≡ of_layer layer (binary terminal) }
{
    match binary(terminal) {
        Some((of, op)) if of == layer + 1 => Some(op),
        _ => None,
    }
}

/// The operator that the token at a place is between operands of a layer; it makes an expression of the next layer.
pub fn operator_at(terminals: &[Terminal], layer: u32, at: u32) -> Option<BinOp>
    requires { layer < 2 ^ 32 - 1 }
    ensures value { result ≡ operator_of layer (slice_get terminals.now at) }
    ensures within { OnSome result (at < length terminals.now) }
{
    match terminals.get(at as usize) {
        Some(terminal) => operator(layer, *terminal),
        None => None,
    }
}

/// How a select goes on behind its first expression, if not with `]`.
pub fn between_at(terminals: &[Terminal], at: u32) -> Option<Between>
    ensures value { result ≡ between_of (slice_get terminals.now at) }
    ensures within { OnSome result (at < length terminals.now) }
{
    match terminals.get(at as usize) {
        Some(Terminal::Colon) => Some(Between::Colon),
        Some(Terminal::PlusColon) => Some(Between::PlusColon),
        Some(Terminal::MinusColon) => Some(Between::MinusColon),
        _ => None,
    }
}

/// Whether an expression ends before a place.
pub fn ends_at(terminals: &[Terminal], at: u32) -> bool
    ensures { result ≡ ends_expr (slice_get terminals.now at) }
{
    matches!(
        terminals.get(at as usize),
        Some(
            Terminal::CloseParen
                | Terminal::CloseBracket
                | Terminal::CloseBrace
                | Terminal::Comma
                | Terminal::Semicolon
                | Terminal::Colon
                | Terminal::OpenBrace
                | Terminal::PlusColon
                | Terminal::MinusColon
        )
    )
}
