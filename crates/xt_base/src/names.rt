//! Names and words: text that is owned.
ghost use Rattle.std.specs.Prelude.{◌≡◌, ◌++◌, ◌∷◌, [], ◌<◌, ◌≤◌, ◌↔◌, length, IfOk, OnOk, OnErr, IsTrue, IsSome, IfSome, slice_get, string_bytes};
ghost use Rattle.std.specs.Str.{IsAscii};

use crate::refusals::NoMemory;
use std::alloc::Global;
use std::marker::Model;

/// A name of the source: owned ASCII text, which contracts see as the list of its bytes.
#[derive(Debug, Drop)]
pub struct Name {
    text: String,
}

impl Model for Name {
    ghost use Rattle.std.specs.Prelude.{List, ℕ, string_bytes};
    ghost use Rattle.std.specs.Str.{IsAscii};

    ghost Value = { List ℕ };

    ghost view = { λ n. string_bytes n.text };

    ghost invariant = { λ n. IsAscii (string_bytes n.text) };
}

impl Name {
    /// A copy of the text.
    pub fn new(alloc: Global, text: &str) -> Result<Name, NoMemory>
        requires { IsAscii text.now }
        ensures { IfOk result (λ name. name ≡ text.now) }
    {
        Ok(Name {
            text: String::from_str(alloc, text)?,
        })
    }

    /// The text.
    pub fn as_str(&self) -> &str
        ensures text { result.now ≡ self.now }
        ensures ascii { IsAscii self.now }
    {
        self.text.as_str()
    }
}

/// The words of a command line, which contracts see as the list of their bytes.
#[derive(Debug, Drop)]
pub struct Words {
    list: Vec<String>,
}

impl Model for Words {
    ghost use Rattle.std.specs.Prelude.{List, ℕ, map, string_bytes};

    ghost Value = { List (List ℕ) };

    ghost view = { λ w. map string_bytes w.list.items };
}

impl Words {
    /// No words.
    pub fn new(alloc: Global) -> Words
        ensures { result ≡ [] }
    {
        Words {
            list: Vec::new(alloc),
        }
    }

    /// Adds a copy of the word at the end; without memory for it the words stay as they were.
    pub fn push(&mut self, word: &str) -> Result<(), NoMemory>
        ensures ok { OnOk result (self.new ≡ self.old ++ word.now ∷ []) }
        ensures err { OnErr result (self.new ≡ self.old) }
    {
        let word = String::from_str(*self.list.allocator(), word)?;
        self.list.push(word)?;
        Ok(())
    }

    /// How many words there are.
    pub fn len(&self) -> usize
        ensures { result ≡ length self.now }
    {
        self.list.len()
    }

    /// Whether there is no word.
    pub fn is_empty(&self) -> bool
        ensures { IsTrue result ↔ (self.now ≡ []) }
    {
        self.list.is_empty()
    }

    /// The word at a place from 0; None exactly where the place isn't below the length.
    pub fn get(&self, i: usize) -> Option<&str>
        ensures there { IsSome result ↔ (i < length self.now) }
        ensures word { IfSome result (λ word. slice_get self.now i ≡ Some word.now) }
    {
        match self.list.get(i) {
            Some(word) => Some(word.as_str()),
            None => None,
        }
    }
}
