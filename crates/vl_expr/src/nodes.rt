//! The nodes of expressions, put together from their parts.
ghost use Rattle.std.specs.Prelude.{◌≡◌, ◌<◌, ◌≤◌, ◌^◌, ◌-◌, ◌+◌, max, length, IfOk};
ghost use Rattle.vl_tree.specs.declared.exprs.Expr.TheVariants as expr;
ghost use Rattle.vl_tree.specs.declared.exprs.Select.TheVariants as select;
ghost use Rattle.vl_tree.specs.declared.terminals.Terminal.{Terminal};
ghost use Rattle.vl_expr.specs.Reading.{Makes, Gives, closed, node, added, single, no_selects, no_args, range_select, decimal_by, is_index};

use crate::classes::{Between, expect};
use crate::found::{Found, ParseError};
use sqlite_items::{Boxed, Items};
use std::alloc::Global;
use vl_tree::{BinOp, Expr, Select, Sign, Terminal, UnOp};

fn boxed(alloc: Global, tree: Expr) -> Result<Boxed<Expr>, ParseError>
    ensures { Makes result tree }
{
    match Boxed::new(alloc, tree) {
        Ok(tree) => Ok(tree),
        Err(_) => Err(ParseError::Memory),
    }
}

/// A tree that is one deeper than its parts.
pub fn node<T>(tree: T, end: u32, depth: u32) -> Found<T>
    requires { depth < 2 ^ 32 - 1 }
    ensures { result ≡ node tree end depth }
{
    Found {
        tree,
        end,
        depth: depth + 1,
    }
}

/// A list of one part.
pub fn single<T: Drop>(alloc: Global, part: Found<T>) -> Result<Found<Items<T>>, ParseError>
    ensures { Makes result (single part) }
{
    let mut tree = Items::new(alloc);
    match tree.push(part.tree) {
        Ok(()) => Ok(Found {
            tree,
            end: part.end,
            depth: part.depth,
        }),
        Err(_) => Err(ParseError::Memory),
    }
}

/// A list with one part more.
pub fn added<T: Drop>(list: Found<Items<T>>, part: Found<T>) -> Result<Found<Items<T>>, ParseError>
    ensures { Makes result (added list part) }
{
    let mut tree = list.tree;
    match tree.push(part.tree) {
        Ok(()) => Ok(Found {
            tree,
            end: part.end,
            depth: list.depth.max(part.depth),
        }),
        Err(_) => Err(ParseError::Memory),
    }
}

/// No select.
pub fn no_selects(alloc: Global, at: u32) -> Found<Items<Select>>
    ensures { result ≡ no_selects at }
{
    Found {
        tree: Items::new(alloc),
        end: at,
        depth: 0,
    }
}

/// No arguments between two parentheses.
pub fn no_args(alloc: Global, at: u32) -> Found<Items<Expr>>
    requires { at < 2 ^ 32 - 2 }
    ensures { result ≡ no_args at }
{
    Found {
        tree: Items::new(alloc),
        end: at + 2,
        depth: 0,
    }
}

/// A plain index, behind which `]` stands.
pub fn index_node(at: u32, index: Found<Expr>) -> Found<Select>
    requires depth { index.depth < 2 ^ 32 - 1 }
    requires room { index.end < 2 ^ 32 - 1 }
    ensures { result ≡ node (select.Index at index.tree) (index.end + 1) index.depth }
{
    let end = index.end + 1;
    let depth = index.depth;
    let index = index.tree;
    node(Select::Index { at, index }, end, depth)
}

/// A select with two expressions, behind which `]` stands.
pub fn range_node(kind: Between, at: u32, first: Found<Expr>, second: Found<Expr>) -> Found<Select>
    requires first { first.depth < 2 ^ 32 - 1 }
    requires second { second.depth < 2 ^ 32 - 1 }
    requires room { second.end < 2 ^ 32 - 1 }
    ensures { result ≡ node (range_select kind at first.tree second.tree) (second.end + 1) (max first.depth second.depth) }
{
    let end = second.end + 1;
    let depth = first.depth.max(second.depth);
    node(range_select(kind, at, first.tree, second.tree), end, depth)
}

/// A select with two expressions.
fn range_select(kind: Between, at: u32, first: Expr, second: Expr) -> Select
    ensures { result ≡ range_select kind at first second }
{
    match kind {
        Between::Colon => Select::Part {
            at,
            msb: first,
            lsb: second,
        },
        Between::PlusColon => Select::Up {
            at,
            base: first,
            width: second,
        },
        Between::MinusColon => Select::Down {
            at,
            base: first,
            width: second,
        },
    }
}

/// Whether a select is a plain index.
pub fn is_index(select: &Select) -> bool
    ensures { result ≡ is_index select.now }
{
    matches!(select, Select::Index { .. })
}

/// A decimal number, or one with a base behind its size.
pub fn decimal(at: u32, sized: bool) -> Found<Expr>
    requires { at < 2 ^ 32 - 2 }
    ensures { result ≡ decimal_by at sized }
{
    if sized {
        let size = Some(at);
        node(
            Expr::Based {
                at,
                size,
                number: at + 1,
            },
            at + 2,
            0,
        )
    } else {
        node(Expr::Decimal { at, number: at }, at + 1, 0)
    }
}

/// A number with a base and no size.
pub fn based(at: u32) -> Found<Expr>
    requires { at < 2 ^ 32 - 1 }
    ensures { result ≡ node (expr.Based at None at) (at + 1) 0 }
{
    node(
        Expr::Based {
            at,
            size: None,
            number: at,
        },
        at + 1,
        0,
    )
}

/// A name with its selects.
pub fn name_node(at: u32, selects: Found<Items<Select>>) -> Found<Expr>
    requires { selects.depth < 2 ^ 32 - 1 }
    ensures { result ≡ node (expr.Name at at selects.tree) selects.end selects.depth }
{
    let end = selects.end;
    let depth = selects.depth;
    let selects = selects.tree;
    node(
        Expr::Name {
            at,
            name: at,
            selects,
        },
        end,
        depth,
    )
}

/// A call with its arguments.
pub fn call_node(at: u32, args: Found<Items<Expr>>) -> Found<Expr>
    requires { args.depth < 2 ^ 32 - 1 }
    ensures { result ≡ node (expr.Call at at args.tree) args.end args.depth }
{
    let end = args.end;
    let depth = args.depth;
    let args = args.tree;
    node(Expr::Call { at, name: at, args }, end, depth)
}

/// A concatenation, behind whose parts `}` stands.
pub fn concat_node(at: u32, parts: Found<Items<Expr>>) -> Found<Expr>
    requires depth { parts.depth < 2 ^ 32 - 1 }
    requires room { parts.end < 2 ^ 32 - 1 }
    ensures { result ≡ node (expr.Concat at parts.tree) (parts.end + 1) parts.depth }
{
    let end = parts.end + 1;
    let depth = parts.depth;
    let parts = parts.tree;
    node(Expr::Concat { at, parts }, end, depth)
}

/// A part with its closing token.
pub fn closed<T: Drop>(
    terminals: &[Terminal],
    terminal: Terminal,
    part: Found<T>,
) -> Result<Found<T>, ParseError>
    requires { length terminals.now < 2 ^ 32 - 2 }
    ensures exact { Gives result (closed terminals.now terminal part) }
    ensures fits { IfOk result (λ p. p.depth ≡ part.depth) }
    ensures within { IfOk result (λ p. p.end ≤ length terminals.now) }
{
    expect(terminals, part.end, terminal)?;
    Ok(Found {
        end: part.end + 1,
        ..part
    })
}

/// An operator before its operand.
pub fn unary_node(
    alloc: Global,
    at: u32,
    op: UnOp,
    operand: Found<Expr>,
) -> Result<Found<Expr>, ParseError>
    requires { operand.depth < 2 ^ 32 - 1 }
    ensures { Makes result (node (expr.Unary at op operand.tree) operand.end operand.depth) }
{
    let end = operand.end;
    let depth = operand.depth;
    let operand = boxed(alloc, operand.tree)?;
    Ok(node(Expr::Unary { at, op, operand }, end, depth))
}

/// `$signed` or `$unsigned` before a value in parentheses.
pub fn sign_node(
    alloc: Global,
    at: u32,
    sign: Sign,
    value: Found<Expr>,
) -> Result<Found<Expr>, ParseError>
    requires { value.depth < 2 ^ 32 - 1 }
    ensures { Makes result (node (expr.Sign at sign value.tree) value.end value.depth) }
{
    let end = value.end;
    let depth = value.depth;
    let value = boxed(alloc, value.tree)?;
    Ok(node(Expr::Sign { at, sign, value }, end, depth))
}

/// An operator between its operands.
pub fn binary_node(
    alloc: Global,
    at: u32,
    op: BinOp,
    left: Found<Expr>,
    right: Found<Expr>,
) -> Result<Found<Expr>, ParseError>
    requires left { left.depth < 2 ^ 32 - 1 }
    requires right { right.depth < 2 ^ 32 - 1 }
    ensures { Makes result (node (expr.Binary at op left.tree right.tree) right.end (max left.depth right.depth)) }
{
    let end = right.end;
    let depth = left.depth.max(right.depth);
    let left = boxed(alloc, left.tree)?;
    let right = boxed(alloc, right.tree)?;
    Ok(node(
        Expr::Binary {
            at,
            op,
            left,
            right,
        },
        end,
        depth,
    ))
}

/// A choice of two values by a test.
pub fn choice_node(
    alloc: Global,
    at: u32,
    test: Found<Expr>,
    first: Found<Expr>,
    second: Found<Expr>,
) -> Result<Found<Expr>, ParseError>
    requires test { test.depth < 2 ^ 32 - 1 }
    requires first { first.depth < 2 ^ 32 - 1 }
    requires second { second.depth < 2 ^ 32 - 1 }
    ensures { Makes result
        (node (expr.Choice at test.tree first.tree second.tree) second.end (max test.depth (max first.depth second.depth))) }
{
    let end = second.end;
    let depth = test.depth.max(first.depth.max(second.depth));
    let test = boxed(alloc, test.tree)?;
    let first = boxed(alloc, first.tree)?;
    let second = boxed(alloc, second.tree)?;
    Ok(node(
        Expr::Choice {
            at,
            test,
            first,
            second,
        },
        end,
        depth,
    ))
}

/// A replication, whose parts end before the last closing brace.
pub fn replicate_node(
    alloc: Global,
    at: u32,
    count: Found<Expr>,
    parts: Found<Items<Expr>>,
) -> Result<Found<Expr>, ParseError>
    requires count { count.depth < 2 ^ 32 - 1 }
    requires parts { parts.depth < 2 ^ 32 - 1 }
    requires room { parts.end < 2 ^ 32 - 1 }
    ensures { Makes result
        (node (expr.Replicate at count.tree parts.tree) (parts.end + 1) (max count.depth parts.depth)) }
{
    let end = parts.end + 1;
    let depth = count.depth.max(parts.depth);
    let count = boxed(alloc, count.tree)?;
    let parts = parts.tree;
    Ok(node(Expr::Replicate { at, count, parts }, end, depth))
}
