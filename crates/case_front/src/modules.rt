//! The trees of sources, shown in one line.
use crate::expressions::{Source, add_word, levels};
use crate::statements::show;
use case_file::{Case, Stop, failed, text};
use std::alloc::Global;
use vl_lex::lex;
use vl_parse::parse;
use vl_tree::{Args, Dir, Direction, Fdir, Item, Module, Pdecl, Port, Tree};

/// The tree of a source.
///
/// Of lists of parameters, ports and formals it shows the leading words: `p`, `i`, `o` and `r` for `output reg`, and `-`
/// where those before hold. Of other declarations it shows how many names they have.
pub fn tree(alloc: Global, case: &Case) -> Result<String, Stop> {
    let text = text(alloc, case)?;
    let levels = levels(alloc, case, "levels")?;
    let tokens = match lex(alloc, &text) {
        Ok(tokens) => tokens,
        Err(fail) => return failed(alloc, fail),
    };
    let tree = match parse(alloc, &text, &tokens) {
        Ok(tree) => tree,
        Err(fail) => return failed(alloc, fail),
    };
    let mut out = String::new(alloc);
    let source = Source {
        bytes: text.bytes(),
        tokens: tokens.list(),
    };
    show_tree(&source, levels, &tree, &mut out)?;
    Ok(out)
}

fn letter(direction: Direction) -> char {
    match direction {
        Direction::Input => 'i',
        Direction::Output => 'o',
    }
}

fn show_args(args: &Args, out: &mut String) -> Result<(), Stop> {
    if let Args::Listed { formals, .. } = args {
        out.push('(')?;
        for formal in formals.as_slice() {
            out.push(match &formal.fdir {
                Some(Fdir::Vector { direction, .. } | Fdir::Integer { direction, .. }) => {
                    letter(*direction)
                }
                None => '-',
            })?;
        }
        out.push(')')?;
    }
    Ok(())
}

fn show_count(word: &str, count: usize, out: &mut String) -> Result<(), Stop> {
    Ok(write!(out, "{word}{count}")?)
}

fn show_declaration(source: &Source<'_>, item: &Item, out: &mut String) -> Result<(), Stop> {
    match item {
        Item::Params { values, .. } => show_count("param", values.len(), out),
        Item::Wires { names, .. } => show_count("wire", names.len(), out),
        Item::Regs { names, .. } => show_count("reg", names.len(), out),
        Item::Integers { names, .. } => show_count("integer", names.len(), out),
        Item::Assigns { values, .. } => show_count("assign", values.len(), out),
        Item::Import { import, .. } => {
            add_word(source, import.name, out)?;
            Ok(write!(out, "<{}>", import.args.len())?)
        }
        Item::Instances {
            module,
            instances,
            ..
        } => {
            add_word(source, *module, out)?;
            show_count("", instances.len(), out)
        }
        _ => Ok(()),
    }
}

fn show_item(source: &Source<'_>, levels: u32, item: &Item, out: &mut String) -> Result<(), Stop> {
    match item {
        Item::Always { body, .. } | Item::Initial { body, .. } => show(source, levels, body, out),
        Item::Task { task, .. } => {
            add_word(source, task.name, out)?;
            show_args(&task.args, out)?;
            show(source, levels, &task.body, out)
        }
        Item::Function { function, .. } => {
            add_word(source, function.name, out)?;
            show_args(&function.args, out)?;
            show(source, levels, &function.body, out)
        }
        _ => show_declaration(source, item, out),
    }
}

fn show_params(params: &[Pdecl], out: &mut String) -> Result<(), Stop> {
    out.push_str("#(")?;
    for param in params {
        out.push(if param.ptype.is_some() { 'p' } else { '-' })?;
    }
    Ok(out.push(')')?)
}

fn show_ports(ports: &[Port], out: &mut String) -> Result<(), Stop> {
    out.push('(')?;
    for port in ports {
        out.push(match &port.dir {
            Some(Dir::Net { direction, .. }) => letter(*direction),
            Some(Dir::Reg { .. }) => 'r',
            None => '-',
        })?;
    }
    Ok(out.push(')')?)
}

fn show_module(
    source: &Source<'_>,
    levels: u32,
    module: &Module,
    out: &mut String,
) -> Result<(), Stop> {
    add_word(source, module.name, out)?;
    if let Some(params) = &module.params {
        show_params(params.as_slice(), out)?;
    }
    if let Some(ports) = &module.ports {
        show_ports(ports.as_slice(), out)?;
    }
    for item in module.items.as_slice() {
        out.push(' ')?;
        show_item(source, levels, item, out)?;
    }
    Ok(())
}

fn show_tree(source: &Source<'_>, levels: u32, tree: &Tree, out: &mut String) -> Result<(), Stop> {
    let mut is_first = true;
    for module in tree.modules.as_slice() {
        if !is_first {
            out.push(' ')?;
        }
        is_first = false;
        show_module(source, levels, module, out)?;
    }
    Ok(())
}
