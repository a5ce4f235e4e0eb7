//! The tokens of a source as the form's reader takes them.
ghost use Rattle.std.specs.Prelude.{◌≡◌, ◌<◌, MatchResult, length, slice_get, option_copied};
ghost use Rattle.vl_lex.specs.Tokens.{AreSpans};
ghost use Rattle.vl_lex.specs.Views.{spellings_of, places_of};
ghost use Rattle.xt_compile.specs.declared.first.tokens.FormError.TheVariants as errors;
ghost use Rattle.xt_compile.specs.first.Tree.{place_at, spells, whole_file};

use std::alloc::AllocError;
use std::marker::Model;
use thiserror::Error;
use vl_lex::{Token, place_at, spelling};
use vl_pre::Text;
use xt_base::{NoMemory, Place};

/// Why a source isn't read.
#[derive(Clone, Copy, Debug, PartialEq, Eq, Error)]
pub enum FormError {
    #[error("the source isn't of the form that is read")]
    OutOfForm,
    #[error("out of memory")]
    Memory,
}

impl From<NoMemory> for FormError {
    ghost from_gives = { λ _ e. e ≡ errors.Memory };

    fn from(_error: NoMemory) -> FormError {
        FormError::Memory
    }
}

impl From<AllocError> for FormError {
    ghost from_gives = { λ _ e. e ≡ errors.Memory };

    fn from(_error: AllocError) -> FormError {
        FormError::Memory
    }
}

/// The tokens of a text, as the form's reader takes them: what each spells, and where it stands.
#[derive(Drop)]
pub struct Lexed<'a> {
    text: &'a Text,
    tokens: &'a [Token],
}

impl<'a> Model for Lexed<'a> {
    ghost use Rattle.std.specs.Prelude.{length};
    ghost use Rattle.vl_lex.specs.Tokens.{AreSpans};
    ghost use Rattle.vl_lex.specs.Views.{spellings_of, places_of};
    ghost use Rattle.xt_compile.specs.first.Tree as tree;

    ghost Value = { tree.Lexed };

    ghost view = { λ s. record { names = spellings_of s.text.now.bytes s.tokens.now; places = places_of s.text.now s.tokens.now; stretches = length s.text.now.names } };

    ghost invariant = { λ s. AreSpans s.tokens.now (length s.text.now.bytes) };
}

impl<'a> Lexed<'a> {
    pub fn new(text: &'a Text, tokens: &'a [Token]) -> Lexed<'a>
        requires { AreSpans tokens.now (length text.now.bytes) }
        ensures { result ≡ record { names = spellings_of text.now.bytes tokens.now; places = places_of text.now tokens.now; stretches = length text.now.names } }
    {
        Lexed { text, tokens }
    }

    /// What the token with this number spells.
    fn get(&self, at: u32) -> Option<&'a [u8]>
        ensures { option_copied result ≡ slice_get self.now.names at }
    {
        match self.tokens.get(at as usize) {
            Some(token) => Some(spelling(self.text.bytes(), token)),
            None => None,
        }
    }

    /// What the token with this number spells, or that there is none.
    pub fn at(&self, at: u32) -> Result<&'a [u8], FormError>
        ensures { MatchResult result (λ bytes. slice_get self.now.names at ≡ Some bytes.now) (λ error. (error ≡ errors.OutOfForm) × (slice_get self.now.names at ≡ None)) }
    {
        match self.get(at) {
            Some(bytes) => Ok(bytes),
            None => Err(FormError::OutOfForm),
        }
    }

    /// Whether the token with this number is spelled so.
    pub fn spells(&self, at: u32, bytes: &[u8]) -> bool
        ensures { result ≡ spells self.now.names at bytes.now }
    {
        match self.get(at) {
            Some(found) => found == bytes,
            None => false,
        }
    }

    /// The place of the token with this number; line 0 where there is none.
    pub fn place(&self, at: u32) -> Place
        ensures place { result ≡ place_at self.now.places at }
        ensures named { result.file < self.now.stretches }
    {
        if (at as usize) < self.tokens.len() {
            place_at(self.text, self.tokens, at)
        } else {
            whole_file(self.text)
        }
    }
}

/// The file of a text as a whole, which is line 0.
fn whole_file(text: &Text) -> Place
    ensures place { result ≡ whole_file }
    ensures named { result.file < length text.now.names }
{
    // A text has a file at least, which its type keeps: that is seen once the text is read.
    let _bytes = text.bytes();
    Place {
        file: 0,
        line: 0,
        instance: 0,
    }
}
