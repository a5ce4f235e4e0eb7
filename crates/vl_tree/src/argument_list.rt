//! The formals and the locals of a task or function, in one list for both forms of declaring them.
ghost use Rattle.std.specs.Prelude.{◌≡◌, ◌++◌, ◌∷◌, [], None, map, flat_map, IfOk, OnOk};
ghost use Rattle.vl_tree.specs.Arguments.{argument_of, arguments_of, listed_formals, declared_arguments};
ghost use Rattle.vl_tree.specs.Arguments as plain;

use crate::routines::{Arg, Args, Fdir, Formal, Local};
use std::alloc::{AllocError, Global};

/// A formal, or a declaration of locals.
#[derive(Clone, Copy)]
pub enum Argument<'a> {
    /// The words that hold at the formal, and the token of its name. The first formal of a list has words.
    Formal { words: Option<&'a Fdir>, name: u32 },
    Locals { local: &'a Local },
}

/// Adds the formals of a list in parentheses.
fn put_formals<'a>(into: &mut Vec<Argument<'a>>, formals: &'a [Formal]) -> Result<(), AllocError>
    ensures { OnOk result (map argument_of into.new.items ≡ map argument_of into.old.items ++ listed_formals None formals.now) }
{
    let mut words = None;
    for formal in formals {
        words = formal.words_or(words);
        into.push(Argument::Formal {
            words,
            name: formal.name,
        })?;
    }
    Ok(())
}

/// Adds declarations of locals.
fn put_locals<'a>(into: &mut Vec<Argument<'a>>, locals: &'a [Local]) -> Result<(), AllocError>
    ensures { OnOk result (map argument_of into.new.items ≡ map argument_of into.old.items ++ map plain.locals locals.now) }
{
    for local in locals {
        into.push(Argument::Locals { local })?;
    }
    Ok(())
}

/// Adds formals that are declared together.
fn put_names<'a>(
    into: &mut Vec<Argument<'a>>,
    words: &'a Fdir,
    names: &[u32],
) -> Result<(), AllocError>
    ensures { OnOk result (map argument_of into.new.items ≡ map argument_of into.old.items ++ map (λ name. plain.formal (Some words.now) name) names.now) }
{
    for name in names {
        into.push(Argument::Formal {
            words: Some(words),
            name: *name,
        })?;
    }
    Ok(())
}

/// Adds what one declaration behind `;` declares.
fn put_declared<'a>(into: &mut Vec<Argument<'a>>, arg: &'a Arg) -> Result<(), AllocError>
    ensures { OnOk result (map argument_of into.new.items ≡ map argument_of into.old.items ++ declared_arguments arg.now) }
{
    match arg {
        Arg::Formals { fdir, names, .. } => put_names(into, fdir, names.as_slice()),
        Arg::Local { local, .. } => {
            into.push(Argument::Locals { local })?;
            Ok(())
        }
    }
}

/// Adds what declarations behind `;` declare.
fn put_all_declared<'a>(into: &mut Vec<Argument<'a>>, args: &'a [Arg]) -> Result<(), AllocError>
    ensures { OnOk result (map argument_of into.new.items ≡ map argument_of into.old.items ++ flat_map declared_arguments args.now) }
{
    for arg in args {
        put_declared(into, arg)?;
    }
    Ok(())
}

/// The formals and the locals of a task or function, in the order of the text.
pub fn arguments(alloc: Global, args: &Args) -> Result<Vec<Argument<'_>>, AllocError>
    ensures { IfOk result (λ all. map argument_of all.items ≡ arguments_of args.now) }
{
    let mut all = Vec::new(alloc);
    match args {
        Args::Listed {
            formals,
            locals,
            ..
        } => {
            put_formals(&mut all, formals.as_slice())?;
            put_locals(&mut all, locals.as_slice())?;
        }
        Args::Declared { args, .. } => put_all_declared(&mut all, args.as_slice())?,
    }
    Ok(all)
}
