//! The expressions of a text's tokens.
ghost use Rattle.std.specs.Prelude.{◌≡◌, ◌<◌, ◌≤◌, ◌^◌, ◌-◌, ℕ, List, length, Err, IfOk, MatchResult};
ghost use Rattle.xt_base.specs.declared.refusals.Refusal.{Refusal};
ghost use Rattle.vl_lex.specs.Tokens.{AreTokens};
ghost use Rattle.vl_tree.specs.declared.exprs.Expr.{Expr};
ghost use Rattle.vl_tree.specs.declared.terminals.Terminal.{Terminal};
ghost use Rattle.vl_tree.specs.Expressions.{IsExpr, IsWholeExpr};
ghost use Rattle.vl_expr.specs.Terminals.{terminals_of};
ghost use Rattle.vl_expr.specs.Reading.{Gives, whole_of};
ghost use Rattle.vl_expr.specs.Refusals.{IsNoTree, Tells};

use crate::classes::ends_at;
use crate::found::{Found, ParseError};
use crate::reader::expr_at;
use crate::words::terminals;
use std::alloc::Global;
use vl_lex::Tokens;
use vl_pre::Text;
use vl_tree::{Expr, Terminal};
use xt_base::{Fail, Refusal, Rule};

/// The rule that tokens without a tree break.
const NO_TREE: Rule = Rule(20);

/// The expression that begins at a place and ends before one of the tokens `) ] } , ; : { +: -:`.
fn whole_at(
    alloc: Global,
    terminals: &[Terminal],
    depth: u32,
    at: u32,
) -> Result<Found<Expr>, ParseError>
    requires { length terminals.now < 2 ^ 32 - 2 }
    ensures { Gives result (whole_of terminals.now depth at) }
{
    let found = expr_at(alloc, terminals, depth, at)?;
    if ends_at(terminals, found.end) {
        Ok(found)
    } else {
        Err(ParseError::NoTree { at: found.end })
    }
}

/// The refusal of tokens of which reading stopped at this one, or behind the last.
pub fn refused(text: &Text, tokens: &Tokens, at: u32) -> Refusal
    requires tokens { AreTokens text.now.bytes tokens.now }
    requires some { 0 < length tokens.now }
    ensures { IsNoTree text.now tokens.now at result }
{
    let list = tokens.list();
    let last = list.len() - 1;
    let token = list[last.min(at as usize)];
    Refusal {
        rule: NO_TREE,
        place: text.place(token.start),
    }
}

/// What reading from a place gives, as an answer on the text.
fn told(
    alloc: Global,
    text: &Text,
    tokens: &Tokens,
    at: u32,
    depth: u32,
) -> Result<(Expr, u32), Fail>
    requires tokens { AreTokens text.now.bytes tokens.now }
    requires place { at < length tokens.now }
    ensures { Tells text.now tokens.now result (whole_of (terminals_of text.now.bytes tokens.now) depth at) }
{
    let terminals = terminals(alloc, text, tokens)?;
    match whole_at(alloc, terminals.as_slice(), depth, at) {
        Ok(found) => Ok((found.tree, found.end)),
        Err(ParseError::NoTree { at }) => Err(Fail::Refused(refused(text, tokens, at))),
        Err(ParseError::Memory) => Err(Fail::Memory),
    }
}

/// The expression that begins at token `at`, is not deeper than `depth` and ends before one of the tokens
/// `) ] } , ; : { +: -:`, and the number of that token.
///
/// The depth is the greatest number of expressions, selects and pairs of parentheses round a part that stand in one
/// another. Refused by rule 20 exactly where there is no such expression; the place is that of the token at which reading
/// stops, or of the last one. It goes over the tokens once.
pub fn parse_expr(
    alloc: Global,
    text: &Text,
    tokens: &Tokens,
    at: u32,
    depth: u32,
) -> Result<(Expr, u32), Fail>
    requires tokens { AreTokens text.now.bytes tokens.now }
    requires place { at < length tokens.now }

    // What is answered is such an expression, and there is no other.
    ensures found { IfOk result (λ found. IsWholeExpr (terminals_of text.now.bytes tokens.now) depth at found.1 found.0) }
    ensures only { (e : Expr) (j : ℕ) → IsWholeExpr (terminals_of text.now.bytes tokens.now) depth at j e →
        MatchResult result (λ found. found ≡ (e, j)) (λ fail. fail ≡ Fail.Memory) }

    ensures refused { (refusal : Refusal) → result ≡ Err (Fail.Refused refusal) →
        (stop : ℕ) × (whole_of (terminals_of text.now.bytes tokens.now) depth at ≡ Err stop) × IsNoTree text.now tokens.now stop refusal }
    ensures none { (refusal : Refusal) → result ≡ Err (Fail.Refused refusal) →
        (e : Expr) (j : ℕ) → IsWholeExpr (terminals_of text.now.bytes tokens.now) depth at j e → ⊥ }
{
    told(alloc, text, tokens, at, depth)
}

/// At a place of a list of tokens begins at most one expression that ends before one of the tokens
/// `) ] } , ; : { +: -:`, whatever its depth; and what is one within a depth is one within each larger depth.
pub fn one_expr()
    ensures one { (ls : List Terminal) (n m at i j : ℕ) (e f : Expr) →
        IsWholeExpr ls n at i e → IsWholeExpr ls m at j f → (e ≡ f) × (i ≡ j) }
    ensures deeper { (ls : List Terminal) (n m at j : ℕ) (e : Expr) → n ≤ m →
        IsWholeExpr ls n at j e → IsWholeExpr ls m at j e }
{}
