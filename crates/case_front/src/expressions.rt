//! The trees of expressions, shown in one line.
use case_file::{Case, Stop, add_token, failed, numbers, text};
use std::alloc::Global;
use vl_expr::parse_expr;
use vl_lex::{Token, lex};
use vl_tree::{Expr, Select};

/// The greatest depth of a source.
pub const DEPTH: u32 = 128;

/// The text that a tree's tokens stand in.
#[derive(Clone, Copy)]
pub struct Source<'a> {
    pub bytes: &'a [u8],
    pub tokens: &'a [Token],
}

/// The number of a field, as a level or a depth; that of a source where there is no such field.
pub fn levels(alloc: Global, case: &Case, word: &str) -> Result<u32, Stop> {
    match numbers(alloc, case, word)?.first() {
        None => Ok(DEPTH),
        Some(levels) => u32::try_from(*levels).map_err(|_| Stop::Malformed),
    }
}

/// The tree of the expression that a text begins with, within the depth of the field `depth`.
pub fn expression(alloc: Global, case: &Case) -> Result<String, Stop> {
    let text = text(alloc, case)?;
    let depth = levels(alloc, case, "depth")?;
    let shown = levels(alloc, case, "levels")?;
    let tokens = match lex(alloc, &text) {
        Ok(tokens) => tokens,
        Err(fail) => return failed(alloc, fail),
    };
    if tokens.list().is_empty() {
        return Err(Stop::Malformed);
    }
    let tree = match parse_expr(alloc, &text, &tokens, 0, depth) {
        Ok((tree, _)) => tree,
        Err(fail) => return failed(alloc, fail),
    };
    let mut out = String::new(alloc);
    let source = Source {
        bytes: text.bytes(),
        tokens: tokens.list(),
    };
    show(&source, shown, &tree, &mut out)?;
    Ok(out)
}

/// Adds the spelling of the token with a number.
pub fn add_word(source: &Source<'_>, at: u32, out: &mut String) -> Result<(), Stop> {
    match source.tokens.get(at as usize) {
        Some(token) => add_token(out, source.bytes, token),
        None => Ok(out.push('?')?),
    }
}

#[cycle(show)]
fn show_all(source: &Source<'_>, levels: u32, all: &[Expr], out: &mut String) -> Result<(), Stop> {
    let mut is_first = true;
    for tree in all {
        if !is_first {
            out.push(',')?;
        }
        is_first = false;
        show(source, levels, tree, out)?;
    }
    Ok(())
}

#[cycle(show)]
fn show_pair(
    source: &Source<'_>,
    levels: u32,
    left: &Expr,
    between: char,
    right: &Expr,
    out: &mut String,
) -> Result<(), Stop> {
    show(source, levels, left, out)?;
    out.push(between)?;
    show(source, levels, right, out)
}

#[cycle(show)]
fn show_select(
    source: &Source<'_>,
    levels: u32,
    select: &Select,
    out: &mut String,
) -> Result<(), Stop> {
    out.push('<')?;
    match select {
        Select::Index { index, .. } => show(source, levels, index, out)?,
        Select::Part { msb, lsb, .. } => show_pair(source, levels, msb, ':', lsb, out)?,
        Select::Up { base, width, .. } => show_pair(source, levels, base, '+', width, out)?,
        Select::Down { base, width, .. } => show_pair(source, levels, base, '-', width, out)?,
    }
    Ok(out.push('>')?)
}

/// Adds a tree, down to a number of levels: an operator before its operands, and a name with its selects in angles.
#[cycle(show)]
pub fn show(source: &Source<'_>, levels: u32, tree: &Expr, out: &mut String) -> Result<(), Stop> {
    if levels == 0 {
        return Ok(out.push('_')?);
    }
    let below = levels - 1;
    match tree {
        Expr::Choice {
            test,
            first,
            second,
            ..
        } => {
            out.push_str("?(")?;
            show_pair(source, below, test.get(), ',', first.get(), out)?;
            out.push(',')?;
            show(source, below, second.get(), out)?;
        }
        Expr::Binary {
            op,
            left,
            right,
            ..
        } => {
            write!(out, "{op:?}(")?;
            show_pair(source, below, left.get(), ',', right.get(), out)?;
        }
        Expr::Unary { op, operand, .. } => {
            write!(out, "{op:?}(")?;
            show(source, below, operand.get(), out)?;
        }
        Expr::Sign { sign, value, .. } => {
            write!(out, "{sign:?}(")?;
            show(source, below, value.get(), out)?;
        }
        _ => return show_other(source, below, tree, out),
    }
    Ok(out.push(')')?)
}

#[cycle(show)]
fn show_other(source: &Source<'_>, levels: u32, tree: &Expr, out: &mut String) -> Result<(), Stop> {
    match tree {
        Expr::Decimal { number, .. } => add_word(source, *number, out),
        Expr::Based { size, number, .. } => {
            if let Some(size) = size {
                add_word(source, *size, out)?;
            }
            add_word(source, *number, out)
        }
        Expr::Name { name, selects, .. } => {
            add_word(source, *name, out)?;
            for select in selects.as_slice() {
                show_select(source, levels, select, out)?;
            }
            Ok(())
        }
        Expr::Call { name, args, .. } => {
            add_word(source, *name, out)?;
            out.push('(')?;
            show_all(source, levels, args.as_slice(), out)?;
            Ok(out.push(')')?)
        }
        Expr::Concat { parts, .. } => {
            out.push('{')?;
            show_all(source, levels, parts.as_slice(), out)?;
            Ok(out.push('}')?)
        }
        Expr::Replicate { count, parts, .. } => {
            out.push('{')?;
            show(source, levels, count.get(), out)?;
            out.push(':')?;
            show_all(source, levels, parts.as_slice(), out)?;
            Ok(out.push('}')?)
        }
        _ => Ok(()),
    }
}
