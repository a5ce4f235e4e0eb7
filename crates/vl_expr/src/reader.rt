//! Expressions, read from left to right with one token looked ahead.
//!
//! A function takes the depth that what stands inside may have, and the place where it begins. The levels are 0 for an
//! operand, 1 to 10 for the layers of binary operators from the tightest on, and 11 for an expression.
ghost use Rattle.std.specs.Prelude.{◌≡◌, ℕ, MatchResult, ◌<◌, ◌≤◌, ◌^◌, ◌-◌, ◌+◌, ◌==◌, length, slice_get, IfOk};
ghost use Rattle.vl_tree.specs.declared.terminals.Terminal.TheVariants as lex;
ghost use Rattle.vl_expr.specs.Classes.{is_at, start_of, between_of};
ghost use Rattle.vl_expr.specs.Reading.{Gives, reader_of, level_of, rest_of, tail_of, choice_of, binary_of, operand_of, primary_by, name_by, paren_of, args_of, exprs_of, exprs_from, braces_of, replicate_of, concat_of, selects_of, second_of, select_by, expr_of};
ghost use Rattle.vl_tree.specs.declared.exprs.Expr.{Expr};
ghost use Rattle.vl_tree.specs.Expressions.{IsExpr, IsWholeExpr};

use crate::classes::{Start, between_at, expect, is_at, operator_at, start_at, unary_at};
use crate::found::{Found, ParseError};
use crate::nodes::{
    added, based, binary_node, call_node, choice_node, closed, concat_node, decimal, index_node,
    is_index, name_node, no_args, no_selects, node, range_node, replicate_node, sign_node, single,
    unary_node,
};
use sqlite_items::Items;
use std::alloc::Global;
use vl_tree::{BinOp, Expr, Select, Terminal};

/// What stands one deeper: an expression of a level.
#[cycle(expr)]
fn below(
    alloc: Global,
    terminals: &[Terminal],
    depth: u32,
    level: u32,
    at: u32,
) -> Result<Found<Expr>, ParseError>
    requires level { level ≤ 11 }
    requires room { length terminals.now < 2 ^ 32 - 2 }
    ensures exact { Gives result ((reader_of terminals.now depth).level level at) }
    ensures fits { IfOk result (λ p. p.depth ≤ depth) }
{
    if depth == 0 {
        Err(ParseError::NoTree { at })
    } else {
        level_at(alloc, terminals, depth - 1, level, at)
    }
}

/// An expression of a level.
#[cycle(expr)]
fn level_at(
    alloc: Global,
    terminals: &[Terminal],
    depth: u32,
    level: u32,
    at: u32,
) -> Result<Found<Expr>, ParseError>
    requires level { level ≤ 11 }
    requires room { length terminals.now < 2 ^ 32 - 2 }
    requires depth { depth < 2 ^ 32 - 1 }
    ensures exact { Gives result (level_of terminals.now (reader_of terminals.now depth) depth level at) }
    ensures fits { IfOk result (λ p. p.depth ≤ depth + 1) }
{
    if level == 0 {
        return operand_at(alloc, terminals, depth, at);
    }
    let left = level_at(alloc, terminals, depth, level - 1, at)?;
    rest_at(alloc, terminals, depth, level - 1, at, left)
}

/// What stands behind an expression of a level and makes one of the next.
#[cycle(expr)]
fn rest_at(
    alloc: Global,
    terminals: &[Terminal],
    depth: u32,
    level: u32,
    from: u32,
    left: Found<Expr>,
) -> Result<Found<Expr>, ParseError>
    requires level { level ≤ 10 }
    requires room { length terminals.now < 2 ^ 32 - 2 }
    requires depth { depth < 2 ^ 32 - 1 }
    requires left { left.depth ≤ depth + 1 }
    ensures exact { Gives result
        (rest_of terminals.now (reader_of terminals.now depth) depth level from left (level == 10)) }
    ensures fits { IfOk result (λ p. p.depth ≤ depth + 1) }
{
    if level == 10 {
        choice_at(alloc, terminals, depth, from, left)
    } else {
        tail_at(alloc, terminals, depth, level, from, left)
    }
}

/// A choice behind its test, or the test alone.
#[cycle(expr)]
fn choice_at(
    alloc: Global,
    terminals: &[Terminal],
    depth: u32,
    from: u32,
    test: Found<Expr>,
) -> Result<Found<Expr>, ParseError>
    requires room { length terminals.now < 2 ^ 32 - 2 }
    requires depth { depth < 2 ^ 32 - 1 }
    requires test { test.depth ≤ depth + 1 }
    ensures exact { Gives result (choice_of terminals.now (reader_of terminals.now depth) depth from test) }
    ensures fits { IfOk result (λ p. p.depth ≤ depth + 1) }
{
    if !is_at(terminals, test.end, Terminal::Question) {
        return Ok(test);
    }
    if test.depth > depth {
        return Err(ParseError::NoTree { at: test.end });
    }
    let first = below(alloc, terminals, depth, 11, test.end + 1)?;
    expect(terminals, first.end, Terminal::Colon)?;
    let second = below(alloc, terminals, depth, 11, first.end + 1)?;
    choice_node(alloc, from, test, first, second)
}

/// The binary operators behind an operand, and their right operands.
#[cycle(expr)]
fn tail_at(
    alloc: Global,
    terminals: &[Terminal],
    depth: u32,
    level: u32,
    from: u32,
    first: Found<Expr>,
) -> Result<Found<Expr>, ParseError>
    requires level { level ≤ 9 }
    requires room { length terminals.now < 2 ^ 32 - 2 }
    requires depth { depth < 2 ^ 32 - 1 }
    requires first { first.depth ≤ depth + 1 }
    ensures exact { Gives result
        (tail_of terminals.now (reader_of terminals.now depth) depth level from depth first) }
    ensures fits { IfOk result (λ p. p.depth ≤ depth + 1) }
{
    let mut left = first;
    'turns: for turn in 0..depth {
        match operator_at(terminals, level, left.end) {
            None => break,
            Some(op) => left = binary_at(alloc, terminals, depth, level, from, left, op)?,
        }
    }
    Ok(left)
}

/// A binary operator behind its left operand, and its right operand.
#[cycle(expr)]
fn binary_at(
    alloc: Global,
    terminals: &[Terminal],
    depth: u32,
    level: u32,
    from: u32,
    left: Found<Expr>,
    op: BinOp,
) -> Result<Found<Expr>, ParseError>
    requires level { level ≤ 9 }
    requires room { length terminals.now < 2 ^ 32 - 2 }
    requires depth { depth < 2 ^ 32 - 1 }
    requires left { left.end < length terminals.now }
    ensures exact { Gives result (binary_of (reader_of terminals.now depth) depth level from left op) }
    ensures fits { IfOk result (λ p. p.depth ≤ depth + 1) }
{
    if left.depth > depth {
        return Err(ParseError::NoTree { at: left.end });
    }
    let right = below(alloc, terminals, depth, level, left.end + 1)?;
    binary_node(alloc, from, op, left, right)
}

/// Operators before an operand, and a primary.
#[cycle(expr)]
fn operand_at(
    alloc: Global,
    terminals: &[Terminal],
    depth: u32,
    at: u32,
) -> Result<Found<Expr>, ParseError>
    requires room { length terminals.now < 2 ^ 32 - 2 }
    requires depth { depth < 2 ^ 32 - 1 }
    ensures exact { Gives result (operand_of terminals.now (reader_of terminals.now depth) at) }
    ensures fits { IfOk result (λ p. p.depth ≤ depth + 1) }
{
    match unary_at(terminals, at) {
        Some(op) => {
            let operand = below(alloc, terminals, depth, 0, at + 1)?;
            unary_node(alloc, at, op, operand)
        }
        None => primary_at(alloc, terminals, depth, at),
    }
}

/// A primary.
#[cycle(expr)]
fn primary_at(
    alloc: Global,
    terminals: &[Terminal],
    depth: u32,
    at: u32,
) -> Result<Found<Expr>, ParseError>
    requires room { length terminals.now < 2 ^ 32 - 2 }
    requires depth { depth < 2 ^ 32 - 1 }
    ensures exact { Gives result
        (primary_by terminals.now (reader_of terminals.now depth) at (start_of (slice_get terminals.now at))) }
    ensures fits { IfOk result (λ p. p.depth ≤ depth + 1) }
{
    match start_at(terminals, at) {
        Start::Decimal => Ok(decimal(at, is_at(terminals, at + 1, Terminal::Based))),
        Start::Based => Ok(based(at)),
        Start::Name => name_at(alloc, terminals, depth, at),
        Start::Sign(sign) => {
            let value = paren_at(alloc, terminals, depth, at + 1)?;
            sign_node(alloc, at, sign, value)
        }
        Start::Paren => {
            let inner = paren_at(alloc, terminals, depth, at)?;
            Ok(node(inner.tree, inner.end, inner.depth))
        }
        Start::Brace => braces_at(alloc, terminals, depth, at),
        Start::Nothing => Err(ParseError::NoTree { at }),
    }
}

/// A call, or a name with its selects.
#[cycle(expr)]
fn name_at(
    alloc: Global,
    terminals: &[Terminal],
    depth: u32,
    at: u32,
) -> Result<Found<Expr>, ParseError>
    requires room { length terminals.now < 2 ^ 32 - 2 }
    requires depth { depth < 2 ^ 32 - 1 }
    requires place { at < length terminals.now }
    ensures exact { Gives result
        (name_by terminals.now (reader_of terminals.now depth) at (is_at terminals.now (at + 1) lex.OpenParen)) }
    ensures fits { IfOk result (λ p. p.depth ≤ depth + 1) }
{
    if is_at(terminals, at + 1, Terminal::OpenParen) {
        let args = args_at(alloc, terminals, depth, at + 1)?;
        Ok(call_node(at, args))
    } else {
        let selects = selects_at(alloc, terminals, depth, at + 1)?;
        Ok(name_node(at, selects))
    }
}

/// An expression in parentheses.
#[cycle(expr)]
fn paren_at(
    alloc: Global,
    terminals: &[Terminal],
    depth: u32,
    at: u32,
) -> Result<Found<Expr>, ParseError>
    requires room { length terminals.now < 2 ^ 32 - 2 }
    ensures exact { Gives result (paren_of terminals.now (reader_of terminals.now depth) at) }
    ensures fits { IfOk result (λ p. p.depth ≤ depth) }
{
    expect(terminals, at, Terminal::OpenParen)?;
    let inner = below(alloc, terminals, depth, 11, at + 1)?;
    closed(terminals, Terminal::CloseParen, inner)
}

/// The arguments of a call or of a task's enable, in parentheses: expressions with commas between them, or none, none of them
/// deeper than `depth`.
#[cycle(expr)]
pub fn args_at(
    alloc: Global,
    terminals: &[Terminal],
    depth: u32,
    at: u32,
) -> Result<Found<Items<Expr>>, ParseError>
    requires room { length terminals.now < 2 ^ 32 - 2 }
    ensures exact { Gives result (args_of terminals.now (reader_of terminals.now depth) at) }
    ensures fits { IfOk result (λ p. p.depth ≤ depth) }
{
    expect(terminals, at, Terminal::OpenParen)?;
    if is_at(terminals, at + 1, Terminal::CloseParen) {
        return Ok(no_args(alloc, at));
    }
    let all = exprs_at(alloc, terminals, depth, at + 1)?;
    closed(terminals, Terminal::CloseParen, all)
}

/// Expressions with commas between them, none of them deeper than `depth`.
#[cycle(expr)]
pub fn exprs_at(
    alloc: Global,
    terminals: &[Terminal],
    depth: u32,
    at: u32,
) -> Result<Found<Items<Expr>>, ParseError>
    requires room { length terminals.now < 2 ^ 32 - 2 }
    ensures exact { Gives result (exprs_of terminals.now (reader_of terminals.now depth) at) }
    ensures fits { IfOk result (λ p. p.depth ≤ depth) }
{
    let first = below(alloc, terminals, depth, 11, at)?;
    let all = single(alloc, first)?;
    exprs_behind(alloc, terminals, depth, all)
}

/// The other expressions of a list, each behind a comma.
#[cycle(expr)]
fn exprs_behind(
    alloc: Global,
    terminals: &[Terminal],
    depth: u32,
    first: Found<Items<Expr>>,
) -> Result<Found<Items<Expr>>, ParseError>
    requires room { length terminals.now < 2 ^ 32 - 2 }
    requires first { first.depth ≤ depth }
    ensures exact { Gives result
        (exprs_from terminals.now (reader_of terminals.now depth) (length terminals.now) first) }
    ensures fits { IfOk result (λ p. p.depth ≤ depth) }
{
    let mut all = first;
    'turns: for turn in 0..terminals.len() {
        if !is_at(terminals, all.end, Terminal::Comma) {
            break;
        }
        let next = below(alloc, terminals, depth, 11, all.end + 1)?;
        all = added(all, next)?;
    }
    Ok(all)
}

/// A concatenation or a replication.
#[cycle(expr)]
fn braces_at(
    alloc: Global,
    terminals: &[Terminal],
    depth: u32,
    at: u32,
) -> Result<Found<Expr>, ParseError>
    requires room { length terminals.now < 2 ^ 32 - 2 }
    requires depth { depth < 2 ^ 32 - 1 }
    requires place { at < length terminals.now }
    ensures exact { Gives result (braces_of terminals.now (reader_of terminals.now depth) at) }
    ensures fits { IfOk result (λ p. p.depth ≤ depth + 1) }
{
    let first = below(alloc, terminals, depth, 11, at + 1)?;
    if is_at(terminals, first.end, Terminal::OpenBrace) {
        replicate_at(alloc, terminals, depth, at, first)
    } else {
        concat_at(alloc, terminals, depth, at, first)
    }
}

/// The parts of a replication behind its count.
#[cycle(expr)]
fn replicate_at(
    alloc: Global,
    terminals: &[Terminal],
    depth: u32,
    at: u32,
    count: Found<Expr>,
) -> Result<Found<Expr>, ParseError>
    requires room { length terminals.now < 2 ^ 32 - 2 }
    requires depth { depth < 2 ^ 32 - 1 }
    requires count { count.depth ≤ depth }
    requires place { count.end < length terminals.now }
    ensures exact { Gives result (replicate_of terminals.now (reader_of terminals.now depth) at count) }
    ensures fits { IfOk result (λ p. p.depth ≤ depth + 1) }
{
    let parts = exprs_at(alloc, terminals, depth, count.end + 1)?;
    let inner = closed(terminals, Terminal::CloseBrace, parts)?;
    expect(terminals, inner.end, Terminal::CloseBrace)?;
    replicate_node(alloc, at, count, inner)
}

/// The other parts of a concatenation behind its first one.
#[cycle(expr)]
fn concat_at(
    alloc: Global,
    terminals: &[Terminal],
    depth: u32,
    at: u32,
    first: Found<Expr>,
) -> Result<Found<Expr>, ParseError>
    requires room { length terminals.now < 2 ^ 32 - 2 }
    requires depth { depth < 2 ^ 32 - 1 }
    requires first { first.depth ≤ depth }
    ensures exact { Gives result (concat_of terminals.now (reader_of terminals.now depth) at first) }
    ensures fits { IfOk result (λ p. p.depth ≤ depth + 1) }
{
    let all = single(alloc, first)?;
    let parts = exprs_behind(alloc, terminals, depth, all)?;
    expect(terminals, parts.end, Terminal::CloseBrace)?;
    Ok(concat_node(at, parts))
}

/// The selects behind a name, none of them deeper than `depth`.
#[cycle(expr)]
pub fn selects_at(
    alloc: Global,
    terminals: &[Terminal],
    depth: u32,
    at: u32,
) -> Result<Found<Items<Select>>, ParseError>
    requires room { length terminals.now < 2 ^ 32 - 2 }
    ensures exact { Gives result (selects_of terminals.now (reader_of terminals.now depth) at) }
    ensures fits { IfOk result (λ p. p.depth ≤ depth) }
{
    if !is_at(terminals, at, Terminal::OpenBracket) {
        return Ok(no_selects(alloc, at));
    }
    let first = select_at(alloc, terminals, depth, at)?;
    second_at(alloc, terminals, depth, first)
}

/// A second select behind an index, or none.
#[cycle(expr)]
fn second_at(
    alloc: Global,
    terminals: &[Terminal],
    depth: u32,
    first: Found<Select>,
) -> Result<Found<Items<Select>>, ParseError>
    requires room { length terminals.now < 2 ^ 32 - 2 }
    requires first { first.depth ≤ depth }
    ensures exact { Gives result (second_of terminals.now (reader_of terminals.now depth) first) }
    ensures fits { IfOk result (λ p. p.depth ≤ depth) }
{
    let end = first.end;
    let more = is_index(&first.tree) && is_at(terminals, end, Terminal::OpenBracket);
    let list = single(alloc, first)?;
    if !more {
        return Ok(list);
    }
    let second = select_at(alloc, terminals, depth, end)?;
    added(list, second)
}

/// A select.
#[cycle(expr)]
fn select_at(
    alloc: Global,
    terminals: &[Terminal],
    depth: u32,
    at: u32,
) -> Result<Found<Select>, ParseError>
    requires room { length terminals.now < 2 ^ 32 - 2 }
    ensures exact { Gives result ((reader_of terminals.now depth).select at) }
    ensures fits { IfOk result (λ p. p.depth ≤ depth) }
{
    if depth == 0 {
        return Err(ParseError::NoTree { at });
    }
    expect(terminals, at, Terminal::OpenBracket)?;
    let first = below(alloc, terminals, depth - 1, 11, at + 1)?;
    range_at(alloc, terminals, depth - 1, at, first)
}

/// The rest of a select behind its first expression.
#[cycle(expr)]
fn range_at(
    alloc: Global,
    terminals: &[Terminal],
    depth: u32,
    at: u32,
    first: Found<Expr>,
) -> Result<Found<Select>, ParseError>
    requires room { length terminals.now < 2 ^ 32 - 2 }
    requires depth { depth < 2 ^ 32 - 1 }
    requires first { first.depth ≤ depth }
    ensures exact { Gives result
        (select_by terminals.now (reader_of terminals.now depth) at first (between_of (slice_get terminals.now first.end))) }
    ensures fits { IfOk result (λ p. p.depth ≤ depth + 1) }
{
    match between_at(terminals, first.end) {
        None => {
            expect(terminals, first.end, Terminal::CloseBracket)?;
            Ok(index_node(at, first))
        }
        Some(kind) => {
            let second = below(alloc, terminals, depth, 11, first.end + 1)?;
            expect(terminals, second.end, Terminal::CloseBracket)?;
            Ok(range_node(kind, at, first, second))
        }
    }
}

/// The expression that begins at a place and is not deeper than `depth`.
pub fn expr_at(
    alloc: Global,
    terminals: &[Terminal],
    depth: u32,
    at: u32,
) -> Result<Found<Expr>, ParseError>
    requires { length terminals.now < 2 ^ 32 - 2 }
    ensures exact { Gives result (expr_of terminals.now depth at) }
    ensures found { IfOk result (λ p. IsExpr terminals.now depth at p.end p.tree) }
    ensures only { (e : Expr) (j : ℕ) → IsWholeExpr terminals.now depth at j e →
        MatchResult result (λ p. (p.tree ≡ e) × (p.end ≡ j)) (λ f. f ≡ ParseError.Memory) }
{
    below(alloc, terminals, depth, 11, at)
}
