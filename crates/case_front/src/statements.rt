//! Statements, shown in one line.
use crate::expressions::{DEPTH, Source, add_word, show as show_expression};
use case_file::Stop;
use vl_tree::{Citem, Expr, Stmt};

/// Adds the right side of an assignment, if an operator stands in it.
fn add_value(source: &Source<'_>, value: &Expr, out: &mut String) -> Result<(), Stop> {
    match value {
        Expr::Binary { .. } | Expr::Unary { .. } => {
            out.push(' ')?;
            show_expression(source, DEPTH, value, out)
        }
        _ => Ok(()),
    }
}

#[cycle(show)]
fn show_all(source: &Source<'_>, levels: u32, all: &[Stmt], out: &mut String) -> Result<(), Stop> {
    let mut is_first = true;
    for stmt in all {
        if !is_first {
            out.push(' ')?;
        }
        is_first = false;
        show(source, levels, stmt, out)?;
    }
    Ok(())
}

#[cycle(show)]
fn show_citems(
    source: &Source<'_>,
    levels: u32,
    items: &[Citem],
    out: &mut String,
) -> Result<(), Stop> {
    for item in items {
        match item {
            Citem::Labels { labels, body, .. } => {
                write!(out, "{}:", labels.len())?;
                show(source, levels, body, out)?;
            }
            Citem::Default { body, .. } => {
                out.push_str("d:")?;
                show(source, levels, body, out)?;
            }
        }
    }
    Ok(())
}

#[cycle(show)]
fn show_in(
    source: &Source<'_>,
    levels: u32,
    word: &str,
    body: &Stmt,
    out: &mut String,
) -> Result<(), Stop> {
    out.push_str(word)?;
    out.push('(')?;
    show(source, levels, body, out)?;
    Ok(out.push(')')?)
}

#[cycle(show)]
fn show_if(
    source: &Source<'_>,
    levels: u32,
    first: &Stmt,
    second: Option<&Stmt>,
    out: &mut String,
) -> Result<(), Stop> {
    out.push_str("if(")?;
    show(source, levels, first, out)?;
    if let Some(second) = second {
        out.push(',')?;
        show(source, levels, second, out)?;
    }
    Ok(out.push(')')?)
}

/// Adds a statement, down to a number of levels.
#[cycle(show)]
pub fn show(source: &Source<'_>, levels: u32, stmt: &Stmt, out: &mut String) -> Result<(), Stop> {
    if levels == 0 {
        return Ok(out.push('_')?);
    }
    let below = levels - 1;
    match stmt {
        Stmt::If { first, second, .. } => {
            let second = match second {
                Some(second) => Some(second.get()),
                None => None,
            };
            show_if(source, below, first.get(), second, out)
        }
        Stmt::Case { items, .. } => {
            out.push_str("case(")?;
            show_citems(source, below, items.as_slice(), out)?;
            Ok(out.push(')')?)
        }
        Stmt::For { body, .. } => show_in(source, below, "for", body.get(), out),
        Stmt::While { body, .. } => show_in(source, below, "while", body.get(), out),
        Stmt::Repeat { body, .. } => show_in(source, below, "repeat", body.get(), out),
        Stmt::Forever { body, .. } => show_in(source, below, "forever", body.get(), out),
        Stmt::Wait { body, .. } => show_in(source, below, "@", body.get(), out),
        Stmt::Block { scope, body, .. } => {
            if let Some(scope) = scope {
                add_word(source, scope.get().name, out)?;
            }
            out.push('{')?;
            show_all(source, below, body.as_slice(), out)?;
            Ok(out.push('}')?)
        }
        _ => show_simple(source, stmt, out),
    }
}

fn show_simple(source: &Source<'_>, stmt: &Stmt, out: &mut String) -> Result<(), Stop> {
    match stmt {
        Stmt::Null { .. } => Ok(out.push(';')?),
        Stmt::Blocking { at, value, .. } => {
            out.push('=')?;
            add_word(source, *at, out)?;
            add_value(source, value.get(), out)
        }
        Stmt::Nonblocking { at, value, .. } => {
            out.push_str("<=")?;
            add_word(source, *at, out)?;
            add_value(source, value.get(), out)
        }
        Stmt::Enable { name, args, .. } => {
            add_word(source, *name, out)?;
            match args {
                Some(args) if args.is_empty() => Ok(out.push_str("()")?),
                Some(args) => Ok(write!(out, "({})", args.len())?),
                None => Ok(()),
            }
        }
        Stmt::Disable { names, .. } => Ok(write!(out, "disable({})", names.len())?),
        _ => Ok(()),
    }
}
