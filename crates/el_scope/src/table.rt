//! The symbol table of a source: its declarations, found by scope and name, and by token.
ghost use Rattle.std.specs.Prelude.{◌≡◌, ◌<◌, ◌++◌, ◌∷◌, ◌&&◌, ◌==◌, [], ℕ, List, Some, None, OnOk, IfOk, slice_index_or, bytes_eq, length, cond, option_copied};
ghost use Rattle.std.specs.Option.{option_or};
ghost use Rattle.std.specs.List.{find, list_any};
ghost use Rattle.vl_lex.specs.Tokens.{AreSpans};
ghost use Rattle.vl_lex.specs.Views.{spellings_of, places_of};
ghost use Rattle.vl_names.specs.Declarations.{definitions};
ghost use Rattle.el_scope.specs.Table.{spelled, spells, table_with, table_of, no_place};
ghost use Rattle.el_scope.specs.Lookup.{declared_in, declared_at, outwards, scopes_round, innermost, resolve};
ghost use Rattle.el_scope.specs.inner.Maps.{named, at_token, AllNamed, AllAt};

use indexmap::IndexMap;
use std::alloc::Global;
use std::marker::Model;
use vl_lex::{Tokens, place_at, spelling};
use vl_names::{Declaration, declarations};
use vl_pre::Text;
use vl_tree::Tree;
use xt_base::{NoMemory, Place};

/// A name in a scope.
#[derive(Clone, Copy, Debug, PartialEq, Eq, Hash)]
pub(crate) struct Key<'a> {
    pub(crate) scope: u32,
    pub(crate) name: &'a [u8],
}

/// What the token with this number spells; nothing where there is none.
fn spelled<'a>(text: &'a Text, tokens: &'a Tokens, at: u32) -> &'a [u8]
    requires { AreSpans tokens.now (length text.now.bytes) }
    ensures { result.now ≡ slice_index_or (spellings_of text.now.bytes tokens.now) at [] }
{
    match tokens.list().get(at as usize) {
        Some(token) => spelling(text.bytes(), token),
        None => &[],
    }
}

/// Notes a declaration by its scope and name, unless one is known.
fn note_name<'a>(
    known: &mut IndexMap<Key<'a>, Declaration>,
    key: Key<'a>,
    found: Declaration,
) -> Result<(), NoMemory>
    ensures { OnOk result ((scope : ℕ) (word : List ℕ) → named known.new.entries scope word ≡ option_or (named known.old.entries scope word) (cond (scope == key.entry.scope && bytes_eq word key.entry.name.now) (Some found) None)) }
{
    if known.get(&key).is_some() {
        return Ok(());
    }
    known.insert(key, found)?;
    Ok(())
}

/// Notes a declaration by its token, unless one is known.
fn note_token(known: &mut IndexMap<u32, Declaration>, found: Declaration) -> Result<(), NoMemory>
    ensures { OnOk result ((at : ℕ) → at_token known.new.entries at ≡ option_or (at_token known.old.entries at) (cond (at == found.entity.at) (Some found) None)) }
{
    if known.get(&found.entity.at).is_some() {
        return Ok(());
    }
    known.insert(found.entity.at, found)?;
    Ok(())
}

/// The first declaration of each name in each scope.
fn by_name<'a>(
    alloc: Global,
    text: &'a Text,
    tokens: &'a Tokens,
    all: &[Declaration],
) -> Result<IndexMap<Key<'a>, Declaration>, NoMemory>
    requires { AreSpans tokens.now (length text.now.bytes) }
    ensures { IfOk result (λ known. AllNamed (table_with text.now tokens.now all.now) known.entries) }
{
    let mut known = IndexMap::new(alloc);
    for found in all {
        let key = Key {
            scope: found.entity.scope,
            name: spelled(text, tokens, found.entity.at),
        };
        note_name(&mut known, key, *found)?;
    }
    Ok(known)
}

/// The first declaration at each token.
fn by_token(alloc: Global, all: &[Declaration]) -> Result<IndexMap<u32, Declaration>, NoMemory>
    ensures { IfOk result (λ known. (at : ℕ) → at_token known.entries at ≡ find (λ d. at == d.entity.at) all.now) }
{
    let mut known = IndexMap::new(alloc);
    for found in all {
        note_token(&mut known, *found)?;
    }
    Ok(known)
}

/// The symbol table of a source.
///
/// Contracts see the files that places name, what each token spells, its place, and the declarations in the order of the text.
#[derive(Drop)]
pub(crate) struct Table<'a> {
    text: &'a Text,
    tokens: &'a Tokens,
    declarations: Vec<Declaration>,
    names: IndexMap<Key<'a>, Declaration>,
    places: IndexMap<u32, Declaration>,
}

impl<'a> Model for Table<'a> {
    ghost use Rattle.std.specs.Prelude.{length};
    ghost use Rattle.vl_lex.specs.Tokens.{AreSpans};
    ghost use Rattle.el_scope.specs.Table.{SymbolTable, table_with};
    ghost use Rattle.el_scope.specs.inner.Maps.{AllNamed, AllAt};

    ghost Value = { SymbolTable };

    ghost view = { λ t. table_with t.text.now t.tokens.now t.declarations.items };

    ghost invariant = { λ t. AreSpans t.tokens.now (length t.text.now.bytes)
        × AllNamed (table_with t.text.now t.tokens.now t.declarations.items) t.names.entries
        × AllAt (table_with t.text.now t.tokens.now t.declarations.items) t.places.entries };
}

impl<'a> Table<'a> {
    /// The table of a tree over the tokens of a text.
    pub(crate) fn new(
        alloc: Global,
        text: &'a Text,
        tokens: &'a Tokens,
        tree: &Tree,
    ) -> Result<Table<'a>, NoMemory>
        requires { AreSpans tokens.now (length text.now.bytes) }
        ensures { IfOk result (λ table. table ≡ table_of text.now tokens.now tree.now) }
    {
        let declarations = declarations(alloc, tree)?;
        let names = by_name(alloc, text, tokens, &declarations)?;
        let places = by_token(alloc, &declarations)?;
        Ok(Table {
            text,
            tokens,
            declarations,
            names,
            places,
        })
    }

    /// The declarations in the order of the text.
    pub(crate) fn declarations(&self) -> &[Declaration]
        ensures { result.now ≡ self.now.declarations }
    {
        self.declarations.as_slice()
    }

    /// The place of a token; none in a file where there is no such token.
    pub(crate) fn place(&self, at: u32) -> Place
        ensures place { result ≡ slice_index_or self.now.places at no_place }
        ensures named { 0 < length self.now.files → result.file < length self.now.files }
    {
        if (at as usize) < self.tokens.list().len() {
            place_at(self.text, self.tokens.list(), at)
        } else {
            Place {
                file: 0,
                line: 0,
                instance: 0,
            }
        }
    }

    /// How many tokens there are.
    pub(crate) fn len(&self) -> usize
        ensures { result ≡ length self.now.names }
    {
        self.tokens.list().len()
    }

    /// What a token spells; nothing where there is none.
    pub(crate) fn spelled(&self, at: u32) -> &'a [u8]
        ensures { result.now ≡ spelled self.now at }
    {
        spelled(self.text, self.tokens, at)
    }

    /// Whether a token is spelled so.
    pub(crate) fn spells(&self, at: u32, word: &[u8]) -> bool
        ensures { result ≡ spells self.now at word.now }
    {
        self.spelled(at) == word
    }

    /// The declaration of a name in a scope.
    pub(crate) fn declared_in(&self, scope: u32, name: &[u8]) -> Option<Declaration>
        ensures { result ≡ declared_in self.now scope name.now }
    {
        self.names.get(&Key { scope, name }).copied()
    }

    /// The declaration whose name is a token.
    pub(crate) fn declared_at(&self, at: u32) -> Option<Declaration>
        ensures { result ≡ declared_at self.now at }
    {
        self.places.get(&at).copied()
    }

    /// What a name stands for in a scope.
    pub(crate) fn resolve(&self, scope: u32, name: &[u8]) -> Option<Declaration>
        ensures { result ≡ resolve self.now scope name.now }
    {
        let mut here = scope;
        for _ in 0..self.declarations.len() + 1 {
            if let Some(found) = self.declared_in(here, name) {
                return Some(found);
            }
            match self.declared_at(here) {
                Some(around) => here = around.entity.scope,
                None => return None,
            }
        }
        None
    }

    /// Whether a scope is this one or one round it.
    pub(crate) fn is_round(&self, outer: u32, scope: u32) -> bool
        ensures { result ≡ list_any (λ o. o == outer) (scopes_round self.now scope) }
    {
        let mut here = scope;
        for _ in 0..self.declarations.len() + 1 {
            if here == outer {
                return true;
            }
            match self.declared_at(here) {
                Some(around) => here = around.entity.scope,
                None => return false,
            }
        }
        false
    }
}
