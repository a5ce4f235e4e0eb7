//! The names of a source.
ghost use Rattle.std.specs.Prelude.{◌≡◌, ◌<◌, [], Some, IfOk, MatchResult, IsSome, length};
ghost use Rattle.std.specs.Option.{option_map};
ghost use Rattle.vl_lex.specs.Tokens.{AreSpans};
ghost use Rattle.el_scope.specs.Table.{table_of};
ghost use Rattle.el_scope.specs.Lookup.{resolve};
ghost use Rattle.el_scope.specs.Declaring.{declaration_breaks};
ghost use Rattle.el_scope.specs.Nesting.{scope_at};
ghost use Rattle.el_scope.specs.Passes.{name_breaks};
ghost use Rattle.el_scope.specs.Refusals.{Refuses};

use crate::declaring::check_declarations;
use crate::nesting::scopes;
use crate::passes::check_names;
use crate::table::Table;
use std::alloc::Global;
use std::marker::Model;
use vl_lex::Tokens;
use vl_names::Entity;
use vl_pre::Text;
use vl_tree::Tree;
use xt_base::Fail;

/// The scopes of a source and what is declared in each.
///
/// Contracts see its symbol table: what each token spells, its place, and the declarations in the order of the text.
#[derive(Drop)]
pub struct Scopes<'a> {
    table: Table<'a>,
    /// The scope at each token that stands in one.
    scopes: Vec<Option<u32>>,
}

impl<'a> Model for Scopes<'a> {
    ghost use Rattle.el_scope.specs.Table.{SymbolTable};
    ghost use Rattle.el_scope.specs.inner.Maps.{AreScopes};

    ghost Value = { SymbolTable };

    ghost view = { λ s. s.table };

    ghost invariant = { λ s. AreScopes s.table s.scopes.items };
}

impl<'a> Scopes<'a> {
    /// The scopes of a source, or the first break of a rule on declarations: 31, a name is declared a second time in its scope, or a
    /// module a second time; 37, a declared name begins with `xtc_`. Both are at the name.
    pub fn build(
        alloc: Global,
        text: &'a Text,
        tokens: &'a Tokens,
        tree: &Tree,
    ) -> Result<Scopes<'a>, Fail>
        requires { AreSpans tokens.now (length text.now.bytes) }
        ensures built { IfOk result (λ scopes. scopes ≡ table_of text.now tokens.now tree.now) }
        ensures exact { MatchResult result (λ _. declaration_breaks (table_of text.now tokens.now tree.now) ≡ [])
            (Refuses (table_of text.now tokens.now tree.now) (declaration_breaks (table_of text.now tokens.now tree.now))) }
    {
        let table = Table::new(alloc, text, tokens, tree)?;
        check_declarations(&table)?;
        let scopes = scopes(alloc, &table)?;
        Ok(Scopes { table, scopes })
    }

    /// The rules on names, asked of the tree of these scopes: Ok, or the first break. 30, a name stands for nothing, or a constant
    /// expression of a declaration names a parameter that isn't declared before it; 33, a name is of a kind that may not stand there: both
    /// at the name. 34, a connection or override reaches nothing, stands there twice or connects an output to anything but a whole net: at
    /// the connection. 38, a net has a second driver: at the second.
    pub fn check(&self, alloc: Global, tree: &Tree) -> Result<(), Fail>
        ensures exact { MatchResult result (λ _. name_breaks self.now tree.now ≡ []) (Refuses self.now (name_breaks self.now tree.now)) }
    {
        check_names(alloc, &self.table, tree)
    }

    /// The innermost scope in which a token stands: the token of the name of a module, task, function or block. What follows the name in
    /// the header of a module, task or function stands in its own scope.
    pub fn scope_of(&self, token: u32) -> u32
        requires token { token < length self.now.names }
        requires inside { IsSome (scope_at self.now token) }
        ensures { scope_at self.now token ≡ Some result }
    {
        self.scopes[token as usize].unwrap()
    }

    /// What a name stands for in a scope: what is declared so in it or in the innermost scope round it; a module last.
    pub fn resolve(&self, scope: u32, name: &str) -> Option<Entity>
        ensures { result ≡ option_map (λ d. d.entity) (resolve self.now scope name.now) }
    {
        match self.table.resolve(scope, name.as_bytes()) {
            Some(found) => Some(found.entity),
            None => None,
        }
    }
}
