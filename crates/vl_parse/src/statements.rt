//! Statements. A function takes the depth that what stands in the statement may have.
ghost use Rattle.std.specs.Prelude.{◌≡◌, ◌<◌, ◌^◌, ◌-◌, ◌+◌, ◌*◌, length, slice_get, Ok};
ghost use Rattle.vl_tree.specs.declared.terminals.Terminal.TheVariants as lex;
ghost use Rattle.vl_tree.specs.declared.statements.Stmt.TheVariants as stmt;
ghost use Rattle.vl_expr.specs.Reading.{Gives, past};
ghost use Rattle.vl_parse.specs.Parts.{part, many_of};
ghost use Rattle.vl_parse.specs.Declarations.{exprs_at};
ghost use Rattle.vl_parse.specs.Statements.{opens_stmt, else_of, opens_citem, citems_from, stmt_of};
ghost use Rattle.vl_parse.specs.inner.Steps.{ended_of};
ghost use Rattle.vl_parse.specs.inner.Heads.{label_of, labelled, citem_by, citems_by, nested, rest_of};

use crate::declarations::exprs;
use crate::input::Input;
use crate::lists::Parse;
use crate::part::{Part, added, boxed, none, single};
use crate::simple::{Before, Head, Label, head_at};
use sqlite_items::{Boxed, Items};
use vl_expr::ParseError;
use vl_tree::{Citem, Expr, Scope, Stmt, Terminal};

/// The statement that begins at a place and is not deeper than `depth`.
#[cycle(statement)]
pub fn stmt(input: &Input<'_>, depth: u32, at: u32) -> Result<Part<Stmt>, ParseError>
    ensures { Gives result (stmt_of input.now.terminals input.now.names depth at) }
{
    if depth == 0 {
        return Err(ParseError::NoTree { at });
    }
    let head = head_at(input, depth - 1, at)?;
    rest(input, depth - 1, at, head)
}

/// The statement whose head was read.
#[cycle(statement)]
fn rest(input: &Input<'_>, depth: u32, at: u32, head: Part<Head>) -> Result<Part<Stmt>, ParseError>
    requires { at < 2 ^ 32 - 2 }
    ensures { Gives result
        (rest_of input.now.terminals (stmt_of input.now.terminals input.now.names depth) depth at head) }
{
    let Part { tree, end } = head;
    match tree {
        Head::Whole(tree) => Ok(Part { tree, end }),
        Head::If(test) => {
            let first = inner(input, depth, end)?;
            branches(input, depth, at, test, first)
        }
        Head::Case(on) => {
            let items = citems(input, depth, end)?;
            case_end(input, at, on, items)
        }
        Head::Block(scope) => {
            let body = stmts(input, depth, end)?;
            block_end(input, at, scope, body)
        }
        Head::Before(before) => {
            let body = inner(input, depth, end)?;
            Ok(Part {
                tree: nested(at, before, body.tree),
                end: body.end,
            })
        }
    }
}

/// A statement inside another.
#[cycle(statement)]
fn inner(input: &Input<'_>, depth: u32, at: u32) -> Result<Part<Boxed<Stmt>>, ParseError>
    ensures { Gives result (stmt_of input.now.terminals input.now.names depth at) }
{
    let part = stmt(input, depth, at)?;
    let tree = boxed(input.alloc(), part.tree)?;
    Ok(Part {
        tree,
        end: part.end,
    })
}

/// An `else` goes with the nearest `if`.
#[cycle(statement)]
fn branches(
    input: &Input<'_>,
    depth: u32,
    at: u32,
    test: Boxed<Expr>,
    first: Part<Boxed<Stmt>>,
) -> Result<Part<Stmt>, ParseError>
    ensures { Gives result
        (else_of input.now.terminals (stmt_of input.now.terminals input.now.names depth) at test first) }
{
    if !input.is_at(first.end, Terminal::Else) {
        return Ok(Part {
            tree: Stmt::If {
                at,
                test,
                first: first.tree,
                second: None,
            },
            end: first.end,
        });
    }
    let second = inner(input, depth, first.end + 1)?;
    Ok(Part {
        tree: Stmt::If {
            at,
            test,
            first: first.tree,
            second: Some(second.tree),
        },
        end: second.end,
    })
}

/// A case item, unless it is a second default.
#[cycle(statement)]
fn citem(input: &Input<'_>, depth: u32, at: u32, defaulted: bool) -> Result<Part<Citem>, ParseError>
    ensures { Gives result
        (citem_by input.now.terminals (stmt_of input.now.terminals input.now.names depth) depth defaulted at) }
{
    let label = label(input, depth, at, defaulted)?;
    let body = stmt(input, depth, label.end)?;
    Ok(Part {
        tree: labelled(at, label.tree, body.tree),
        end: body.end,
    })
}

/// Further case items up to `endcase`, no default among them if there was one before.
#[cycle(statement)]
fn further_citems(
    input: &Input<'_>,
    depth: u32,
    had_default: bool,
    first: Part<Items<Citem>>,
) -> Result<Part<Items<Citem>>, ParseError>
    ensures { Gives result
        (citems_from input.now.terminals (stmt_of input.now.terminals input.now.names depth) depth (length input.now.terminals)
        had_default first) }
{
    let mut all = first;
    let mut defaulted = had_default;
    'turns: for turn in 0..input.len() {
        if !opens_citem(input.get(all.end)) {
            break;
        }
        let next = citem(input, depth, all.end, defaulted)?;
        defaulted |= input.is_at(all.end, Terminal::Default);
        all = added(all, next)?;
    }
    Ok(all)
}

/// Case items up to `endcase`, at most one of them a default.
#[cycle(statement)]
fn citems(input: &Input<'_>, depth: u32, at: u32) -> Result<Part<Items<Citem>>, ParseError>
    ensures { Gives result
        (citems_by input.now.terminals (stmt_of input.now.terminals input.now.names depth) depth at) }
{
    let first = citem(input, depth, at, false)?;
    let all = single(input.alloc(), first)?;
    further_citems(input, depth, input.is_at(at, Terminal::Default), all)
}

/// Statements up to `end`.
#[cycle(statement)]
fn stmts(input: &Input<'_>, depth: u32, at: u32) -> Result<Part<Items<Stmt>>, ParseError>
    ensures { Gives result
        (many_of input.now.terminals opens_stmt (stmt_of input.now.terminals input.now.names depth) at) }
{
    let mut all = none(input.alloc(), at);
    'turns: for turn in 0..input.len() {
        if !opens_stmt(input.get(all.end)) {
            break;
        }
        let next = stmt(input, depth, all.end)?;
        all = added(all, next)?;
    }
    Ok(all)
}

impl Parse for Stmt {
    ghost reading = { λ i n at. stmt_of i.terminals i.names n at };

    fn parse(input: &Input<'_>, depth: u32, at: u32) -> Result<Part<Stmt>, ParseError> {
        stmt(input, depth, at)
    }
}

/// Expressions before a colon.
fn labels(input: &Input<'_>, depth: u32, at: u32) -> Result<Part<Items<Expr>>, ParseError>
    ensures { Gives result (ended_of input.now.terminals lex.Colon (exprs_at input.now.terminals depth) at) }
{
    let labels = exprs(input, depth, at)?;
    input.expect(labels.end, Terminal::Colon)?;
    Ok(Part {
        tree: labels.tree,
        end: labels.end + 1,
    })
}

/// What stands before the statement of a case item, unless it is a second default.
fn label(input: &Input<'_>, depth: u32, at: u32, defaulted: bool) -> Result<Part<Label>, ParseError>
    ensures { Gives result (label_of input.now.terminals depth defaulted at) }
{
    if defaulted && input.is_at(at, Terminal::Default) {
        return Err(ParseError::NoTree { at });
    }
    if input.is_at(at, Terminal::Default) {
        let colon = input.is_at(at + 1, Terminal::Colon);
        return Ok(Part {
            tree: Label::Default { colon },
            end: input.behind(Terminal::Colon, at + 1),
        });
    }
    let labels = labels(input, depth, at)?;
    Ok(Part {
        tree: Label::Exprs(labels.tree),
        end: labels.end,
    })
}

fn labelled(at: u32, label: Label, body: Stmt) -> Citem
    ensures { result ≡ labelled at label body }
{
    match label {
        Label::Default { colon } => Citem::Default { at, colon, body },
        Label::Exprs(labels) => Citem::Labels { at, labels, body },
    }
}

/// The case whose items were read.
fn case_end(
    input: &Input<'_>,
    at: u32,
    on: Boxed<Expr>,
    items: Part<Items<Citem>>,
) -> Result<Part<Stmt>, ParseError>
    ensures { Gives result
        (past input.now.terminals items.end lex.Endcase (Ok (part (stmt.Case at on items.tree) (items.end + 1)))) }
{
    input.expect(items.end, Terminal::Endcase)?;
    Ok(Part {
        tree: Stmt::Case {
            at,
            on,
            items: items.tree,
        },
        end: items.end + 1,
    })
}

/// The block whose statements were read.
fn block_end(
    input: &Input<'_>,
    at: u32,
    scope: Option<Boxed<Scope>>,
    body: Part<Items<Stmt>>,
) -> Result<Part<Stmt>, ParseError>
    ensures { Gives result
        (past input.now.terminals body.end lex.End (Ok (part (stmt.Block at scope body.tree) (body.end + 1)))) }
{
    input.expect(body.end, Terminal::End)?;
    Ok(Part {
        tree: Stmt::Block {
            at,
            scope,
            body: body.tree,
        },
        end: body.end + 1,
    })
}

fn nested(at: u32, before: Before, body: Boxed<Stmt>) -> Stmt
    requires { at < 2 ^ 32 - 2 }
    ensures { result ≡ nested at before body }
{
    match before {
        Before::For(header) => Stmt::For {
            at,
            name: at + 2,
            first: header.first,
            test: header.test,
            again: header.again,
            next: header.next,
            body,
        },
        Before::While(test) => Stmt::While { at, test, body },
        Before::Repeat(count) => Stmt::Repeat { at, count, body },
        Before::Forever => Stmt::Forever { at, body },
        Before::Wait { edge, clock } => Stmt::Wait {
            at,
            edge,
            clock,
            body,
        },
    }
}

/// Whether a token may begin a statement of a block.
fn opens_stmt(first: Option<Terminal>) -> bool
    ensures { result ≡ opens_stmt first }
{
    match first {
        Some(terminal) => terminal != Terminal::End,
        None => false,
    }
}

/// Whether a token may begin a case item.
fn opens_citem(first: Option<Terminal>) -> bool
    ensures { result ≡ opens_citem first }
{
    match first {
        Some(terminal) => terminal != Terminal::Endcase,
        None => false,
    }
}
