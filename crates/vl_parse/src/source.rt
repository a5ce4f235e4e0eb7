//! The tree of a text's tokens.
ghost use Rattle.std.specs.Prelude.{◌≡◌, ◌<◌, ◌≤◌, ◌^◌, ◌-◌, ℕ, List, length, Err, IfOk, MatchResult};
ghost use Rattle.xt_base.specs.declared.refusals.Refusal.{Refusal};
ghost use Rattle.vl_lex.specs.Tokens.{AreTokens};
ghost use Rattle.vl_tree.specs.declared.modules.Tree.{Tree};
ghost use Rattle.vl_tree.specs.declared.terminals.Terminal.{Terminal};
ghost use Rattle.vl_tree.specs.Modules.{IsSource};
ghost use Rattle.vl_expr.specs.Terminals.{terminals_of};
ghost use Rattle.vl_lex.specs.Views.{spellings_of};
ghost use Rattle.vl_expr.specs.Reading.{Gives};
ghost use Rattle.vl_expr.specs.Refusals.{IsNoTree};
ghost use Rattle.vl_parse.specs.Modules.{source_of};
ghost use Rattle.vl_parse.specs.Refusals.{Tells};

use crate::input::Input;
use crate::lists::many;
use sqlite_items::Items;
use std::alloc::Global;
use vl_expr::{ParseError, refused, terminals};
use vl_lex::Tokens;
use vl_pre::Text;
use vl_tree::Tree;
use xt_base::Fail;

/// How deep a tree may be.
const MOST_DEPTH: u32 = 128;

/// The source that all tokens are, with nothing in it deeper than `depth`.
fn source(input: &Input<'_>, depth: u32) -> Result<Tree, ParseError>
    ensures { Gives result (source_of input.now.terminals input.now.names depth) }
{
    let modules = many(input, depth, 0)?;
    if input.get(modules.end).is_some() {
        return Err(ParseError::NoTree { at: modules.end });
    }
    Ok(Tree {
        modules: modules.tree,
    })
}

/// What reading the tokens gives, as an answer on the text.
fn told(alloc: Global, text: &Text, tokens: &Tokens) -> Result<Tree, Fail>
    requires tokens { AreTokens text.now.bytes tokens.now }
    requires some { 0 < length tokens.now }
    ensures { Tells text.now tokens.now result
        (source_of (terminals_of text.now.bytes tokens.now) (spellings_of text.now.bytes tokens.now) 128) }
{
    let terminals = terminals(alloc, text, tokens)?;
    let input = Input::new(alloc, terminals.as_slice(), text.bytes(), tokens.list());
    match source(&input, MOST_DEPTH) {
        Ok(tree) => Ok(tree),
        Err(ParseError::NoTree { at }) => Err(Fail::Refused(refused(text, tokens, at))),
        Err(ParseError::Memory) => Err(Fail::Memory),
    }
}

/// The tree of a source, from its tokens.
///
/// Refused by rule 20 exactly where the tokens have no tree of depth at most 128; the place is that of the token at which
/// reading stops (of one of the list, where a list of parameters, ports or formals breaks a side condition), or of the last
/// one. The depth is the greatest number of statements, expressions, left sides, selects and
/// pairs of parentheses round an expression that stand in one another; so the recursion is bounded. It goes over the
/// tokens once.
pub fn parse(alloc: Global, text: &Text, tokens: &Tokens) -> Result<Tree, Fail>
    requires { AreTokens text.now.bytes tokens.now }

    // What is answered is the tree of the tokens, and there is no other.
    ensures found { IfOk result (λ tree.
        IsSource (terminals_of text.now.bytes tokens.now) (spellings_of text.now.bytes tokens.now) 128 tree) }
    ensures only { (tree : Tree) →
        IsSource (terminals_of text.now.bytes tokens.now) (spellings_of text.now.bytes tokens.now) 128 tree →
        MatchResult result (λ found. found ≡ tree) (λ fail. fail ≡ Fail.Memory) }

    ensures refused { (refusal : Refusal) → result ≡ Err (Fail.Refused refusal) → (stop : ℕ) ×
        (source_of (terminals_of text.now.bytes tokens.now) (spellings_of text.now.bytes tokens.now) 128 ≡ Err stop) × IsNoTree text.now tokens.now stop refusal }
    ensures none { (refusal : Refusal) → result ≡ Err (Fail.Refused refusal) → (tree : Tree) →
        IsSource (terminals_of text.now.bytes tokens.now) (spellings_of text.now.bytes tokens.now) 128 tree → ⊥ }
{
    if tokens.list().is_empty() {
        let modules = Items::new(alloc);
        return Ok(Tree { modules });
    }
    told(alloc, text, tokens)
}

/// Tokens have at most one tree, whatever its depth; and what is one within a depth is one within each larger depth.
pub fn one_tree()
    ensures one { (ls : List Terminal) (names : List (List ℕ)) (n m : ℕ) (s t : Tree) →
        IsSource ls names n s → IsSource ls names m t → s ≡ t }
    ensures deeper { (ls : List Terminal) (names : List (List ℕ)) (n m : ℕ) (tree : Tree) → n ≤ m →
        IsSource ls names n tree → IsSource ls names m tree }
{}
