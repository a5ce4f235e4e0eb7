//! What is known in one instance: what its names mean, what its tokens spell, and where they stand.
ghost use Rattle.std.specs.Prelude.{◌≡◌, ◌≤◌, ◌<◌, length, unwrap_or, slice_get, slice_set, replicate, option_copied, IfOk};
ghost use Rattle.vl_lex.specs.Tokens.{AreSpans};
ghost use Rattle.vl_lex.specs.Views.{spellings_of, places_of};
ghost use Rattle.el_width.specs.Environment.{begun, with_meaning, spelled, bound_at, break_at};
ghost use Rattle.el_width.specs.declared.environment.Meaning.TheVariants as meaning;

use sqlite_items::Items;
use std::alloc::Global;
use std::marker::Model;
use vl_lex::{Token, place_at, spelling_at};
use vl_pre::Text;
use xt_base::{NoMemory, Place, Refusal, Rule};
use xt_bits::Bits;

/// A net, a variable or a memory, by its number in the flat design. The width and the sign are those of a word of it.
#[derive(Clone, Copy, Debug, PartialEq, Eq)]
pub struct Object {
    pub number: u32,
    /// In bits.
    pub width: u32,
    pub signed: bool,
    /// The number of the lowest bit, as declared.
    pub lsb: u32,
}

/// A function or an import, by its number in a flat call.
#[derive(Debug, Drop)]
pub struct Routine {
    pub number: u32,
    /// The widths of the formals in their order, in bits; of an import also those of its outputs.
    pub formals: Items<u32>,
    /// The width of the result, in bits; 1 for an import without one.
    pub width: u32,
    pub signed: bool,
    /// The variable that is the result, which the function's name means alone; an import has none.
    pub result: Option<Object>,
}

/// The value of a constant, and its sign.
#[derive(Clone, Copy, Debug, PartialEq, Eq)]
pub struct Constant {
    pub value: Bits,
    pub signed: bool,
}

/// What a name means in an instance.
#[derive(Debug, Drop)]
pub enum Meaning {
    /// Something of which nothing is known, and which is no parameter.
    Unknown,
    /// A parameter whose declaration breaks a rule, so that it has no value.
    Unvalued,
    Parameter { value: Bits, signed: bool },
    Net(Object),
    Variable(Object),
    Memory(Object),
    Routine(Routine),
}

/// What is known in one instance of a module.
#[derive(Debug, Drop)]
pub struct Env<'a> {
    text: &'a Text,
    tokens: &'a [Token],
    bound: &'a [u32],
    instance: u32,
    meanings: Vec<Meaning>,
}

impl<'a> Model for Env<'a> {
    ghost use Rattle.std.specs.Prelude.{length};
    ghost use Rattle.vl_lex.specs.Tokens.{AreSpans};
    ghost use Rattle.vl_lex.specs.Views.{spellings_of, places_of};
    ghost use Rattle.el_width.specs.Environment.{Environment};

    ghost Value = { Environment };

    ghost view = { λ e. record {
      spellings = spellings_of e.text.now.bytes e.tokens.now;
      places = places_of e.text.now e.tokens.now;
      bound = e.bound.now;
      meanings = e.meanings.items;
      instance = e.instance;
    } };

    ghost invariant = { λ e. AreSpans e.tokens.now (length e.text.now.bytes) };
}

impl<'a> Env<'a> {
    /// Nothing is known yet. `bound` has for each token of a name the token at which that name is declared.
    #[tactic(auto, using(crate::proofs::Cut::one_more))]
    pub fn new(
        alloc: Global,
        text: &'a Text,
        tokens: &'a [Token],
        bound: &'a [u32],
        instance: u32,
    ) -> Result<Env<'a>, NoMemory>
        requires spans { AreSpans tokens.now (length text.now.bytes) }
        ensures { IfOk result (λ env. env ≡ begun (spellings_of text.now.bytes tokens.now) (places_of text.now tokens.now) bound.now instance) }
    {
        let mut meanings = Vec::new(alloc);
        for _ in 0..tokens.len() {
            meanings.push(Meaning::Unknown)?;
        }
        Ok(Env {
            text,
            tokens,
            bound,
            instance,
            meanings,
        })
    }

    /// What the name that is declared at a token means.
    pub fn add(&mut self, at: u32, meaning: Meaning)
        requires { at < length self.old.meanings }
        ensures { self.new ≡ with_meaning self.old at meaning }
    {
        self.meanings[at as usize] = meaning;
    }

    /// What the name at a token means. None where nothing that is declared is bound to the token.
    pub fn meaning(&self, name: u32) -> Option<&Meaning>
        ensures { option_copied result ≡ bound_at self.now name }
    {
        match self.bound.get(name as usize) {
            Some(at) => self.meanings.get(*at as usize),
            None => None,
        }
    }

    /// The bytes of a token, and none where there is no such token.
    pub fn spelled(&self, token: u32) -> &[u8]
        ensures { result.now ≡ spelled self.now token }
    {
        if (token as usize) < self.tokens.len() {
            spelling_at(self.text.bytes(), self.tokens, token)
        } else {
            &[]
        }
    }

    /// The break of a rule at a token.
    pub fn break_at(&self, token: u32, rule: u16) -> Refusal
        ensures { result ≡ break_at self.now token rule }
    {
        let place = if (token as usize) < self.tokens.len() {
            place_at(self.text, self.tokens, token)
        } else {
            Place {
                file: 0,
                line: 0,
                instance: 0,
            }
        };
        Refusal {
            rule: Rule(rule),
            place: Place {
                instance: self.instance,
                ..place
            },
        }
    }
}
