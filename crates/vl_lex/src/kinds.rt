//! Tokens: what they are and where they stand.
ghost use Rattle.std.specs.Prelude.{◌≡◌};

use std::marker::Model;

/// What a token is (IEEE 1364-2005, clause 3).
#[derive(Clone, Copy, Debug, PartialEq, Eq)]
pub enum Kind {
    /// An identifier.
    Word,
    /// A keyword.
    Reserved,
    /// A decimal number without a base; before a based one it is its size.
    Decimal,
    /// A quote, a base and the digits of a number.
    Based,
    /// A string.
    Quoted,
    Operator,
    /// A name that begins with `$`.
    System,
}

/// A token: its kind, and the bytes of the text from `start` up to but not including `end`.
#[derive(Clone, Copy, Debug, PartialEq, Eq)]
pub struct Token {
    pub kind: Kind,
    pub start: u32,
    pub end: u32,
}

/// The tokens of a text, which contracts see as their list.
#[derive(Debug, Drop)]
pub struct Tokens {
    items: Vec<Token>,
}

impl Model for Tokens {
    ghost use Rattle.std.specs.Prelude.{List};
    ghost use Rattle.vl_lex.specs.declared.kinds.Token.{Token};

    ghost Value = { List Token };

    ghost view = { λ t. t.items.items };
}

impl Tokens {
    /// The tokens of a list.
    pub(crate) fn new(items: Vec<Token>) -> Tokens
        ensures { result ≡ items.items }
    {
        Tokens { items }
    }

    /// The tokens in the order of the text.
    pub fn list(&self) -> &[Token]
        ensures { result.now ≡ self.now }
    {
        self.items.as_slice()
    }
}
