//! The tokens that are read.
ghost use Rattle.std.specs.Prelude.{◌≡◌, ◌≤◌, ◌<◌, ◌^◌, ◌-◌, slice_get, length, IsTrue, OnOk, OnSome, MatchResult, true, false};
ghost use Rattle.vl_lex.specs.Tokens.{AreSpans};
ghost use Rattle.vl_lex.specs.Views.{spellings_of};
ghost use Rattle.vl_tree.specs.Places.{name_in};
ghost use Rattle.vl_expr.specs.Classes.{is_at};
ghost use Rattle.vl_parse.specs.Input.{Input, same_name};
ghost use Rattle.vl_parse.specs.Parts.{behind};

use std::alloc::Global;
use std::marker::Model;
use vl_expr::{ParseError, expect, is_at, is_name};
use vl_lex::{Token, spelling};
use vl_tree::Terminal;

/// The tokens of a text, as the grammar sees them.
#[derive(Drop)]
pub struct Input<'a> {
    alloc: Global,
    terminals: &'a [Terminal],
    text: &'a [u8],
    tokens: &'a [Token],
}

impl<'a> Model for Input<'a> {
    ghost use Rattle.std.specs.Prelude.{◌<◌, ◌^◌, ◌-◌, ◌≡◌, length};
    ghost use Rattle.vl_lex.specs.Tokens.{AreSpans};
    ghost use Rattle.vl_lex.specs.Views.{spellings_of};
    ghost use Rattle.vl_parse.specs.Input.{Input};

    ghost Value = { Input };

    ghost view = { λ i. record { terminals = i.terminals.now; names = spellings_of i.text.now i.tokens.now } };

    ghost invariant = { λ i. AreSpans i.tokens.now (length i.text.now) × (length i.terminals.now < 2 ^ 32 - 2) };
}

impl<'a> Input<'a> {
    pub fn new(
        alloc: Global,
        terminals: &'a [Terminal],
        text: &'a [u8],
        tokens: &'a [Token],
    ) -> Input<'a>
        requires spans { AreSpans tokens.now (length text.now) }
        requires room { length terminals.now < 2 ^ 32 - 2 }
        ensures { result ≡ record { terminals = terminals.now; names = spellings_of text.now tokens.now } }
    {
        Input {
            alloc,
            terminals,
            text,
            tokens,
        }
    }

    /// The allocator for what is read.
    pub fn alloc(&self) -> Global {
        self.alloc
    }

    pub fn terminals(&self) -> &[Terminal]
        ensures value { result.now ≡ self.now.terminals }
        ensures room { length result.now < 2 ^ 32 - 2 }
    {
        self.terminals
    }

    /// How many tokens there are.
    pub fn len(&self) -> usize
        ensures value { result ≡ length self.now.terminals }
        ensures room { result < 2 ^ 32 - 2 }
    {
        self.terminals.len()
    }

    /// Whether the token at a place is this one.
    pub fn is_at(&self, at: u32, terminal: Terminal) -> bool
        ensures value { result ≡ is_at self.now.terminals at terminal }
        ensures within { IsTrue result → at < 2 ^ 32 - 2 }
    {
        is_at(self.terminals, at, terminal)
    }

    /// The place behind a token that may be left out.
    pub fn behind(&self, terminal: Terminal, at: u32) -> u32
        ensures { result ≡ behind self.now.terminals terminal at }
    {
        if self.is_at(at, terminal) { at + 1 } else { at }
    }

    /// That the token at a place is this one.
    pub fn expect(&self, at: u32, terminal: Terminal) -> Result<(), ParseError>
        ensures value { MatchResult result (λ _. is_at self.now.terminals at terminal ≡ true)
            (λ e. (e ≡ ParseError.NoTree at) × (is_at self.now.terminals at terminal ≡ false)) }
        ensures within { OnOk result (at < 2 ^ 32 - 2) }
    {
        expect(self.terminals, at, terminal)
    }

    /// The token at a place, or none behind the last.
    pub fn get(&self, at: u32) -> Option<Terminal>
        ensures value { result ≡ slice_get self.now.terminals at }
        ensures within { OnSome result (at < 2 ^ 32 - 2) }
    {
        self.terminals.get(at as usize).copied()
    }

    /// That the token at a place is an identifier.
    pub fn name(&self, at: u32) -> Result<(), ParseError>
        ensures value { MatchResult result (λ _. name_in (slice_get self.now.terminals at) ≡ true)
            (λ e. (e ≡ ParseError.NoTree at) × (name_in (slice_get self.now.terminals at) ≡ false)) }
        ensures within { OnOk result (at < 2 ^ 32 - 2) }
    {
        match self.terminals.get(at as usize) {
            Some(terminal) if is_name(*terminal) => Ok(()),
            _ => Err(ParseError::NoTree { at }),
        }
    }

    /// Whether two tokens are spelled alike.
    pub fn same_name(&self, left: u32, right: u32) -> bool
        ensures { result ≡ same_name self.now.names left right }
    {
        match (
            self.tokens.get(left as usize),
            self.tokens.get(right as usize),
        ) {
            (Some(left), Some(right)) => spelling(self.text, left) == spelling(self.text, right),
            (None, None) => true,
            _ => false,
        }
    }
}
