//! Rules 53 and 62, over what processes have in place: a disable is of a block or task that is part of this process and of no other,
//! and an import is called by no expression.
ghost use Rattle.std.specs.Prelude.{◌≡◌, ◌+◌, ◌<◌, ◌++◌, OnOk, fold, flat_map, length};
ghost use Rattle.std.specs.List.{list_any};
ghost use Rattle.xt_base.specs.First.{sooner};
ghost use Rattle.el_design.specs.View.{flat_of};
ghost use Rattle.ck_call.specs.inner.Breaks.{breaks_by};
ghost use Rattle.ck_call.specs.inner.Placed.{reach_at, text_at, placed, is_misplaced, is_import, calls_import, line_breaks, process_breaks, is_disable, place_breaks};

use crate::findings::report_if;
use crate::lines::{Form, Line};
use crate::nodes::Node;
use crate::owners::{Owner, is_owner, owner_at, owners, reach_at, text_at};
use crate::texts::{Text, Texts};
use el_design::Design;
use sqlite_items::Items;
use std::alloc::Global;
use xt_base::{Finder, NoMemory};

/// Whether a statement disables what isn't part of this process alone.
fn is_misplaced(owners: &[Owner], process: usize, form: Form) -> bool
    ensures { result ≡ is_misplaced owners.now process form }
{
    match form {
        Form::Disable(mark) => !is_owner(process, owner_at(owners, mark)),
        Form::Named(_) => false,
        Form::Held => false,
        Form::Wait => false,
        Form::Enable(_) => false,
        Form::Host(_, _) => false,
        Form::Other => false,
    }
}

/// Whether a node calls an import; `funcs` is how many functions there are.
fn is_import(funcs: usize, node: Node) -> bool
    ensures { result ≡ is_import funcs node }
{
    match node {
        Node::Call(number, _) => funcs <= number as usize,
        Node::Net(_) => false,
        Node::Var(_) => false,
        Node::Word(_) => false,
        Node::Resize => false,
        Node::Other => false,
    }
}

/// Whether an expression of a line calls an import.
fn calls_import(funcs: usize, line: &Line) -> bool
    ensures { result ≡ calls_import funcs line.now }
{
    for node in line.nodes.as_slice() {
        if is_import(funcs, *node) {
            return true;
        }
    }
    false
}

/// What the rules in place look at.
#[derive(Clone, Copy)]
struct Scope<'a> {
    owners: &'a [Owner],
    funcs: usize,
    tasks: &'a [Text],
}

fn report_lines(finder: &mut Finder, scope: Scope, process: usize, lines: &[Line])
    ensures { finder.new.first ≡ fold sooner finder.old.first (flat_map (line_breaks scope.entry.owners.now scope.entry.funcs process) lines.now) }
{
    for line in lines {
        report_if(
            finder,
            is_misplaced(scope.owners, process, line.form),
            53,
            line.at,
        );
        report_if(finder, calls_import(scope.funcs, line), 62, line.at);
    }
}

fn report_tasks(finder: &mut Finder, scope: Scope, process: usize, reach: &[u32])
    ensures { finder.new.first ≡ fold sooner finder.old.first (flat_map (line_breaks scope.entry.owners.now scope.entry.funcs process) (flat_map (text_at scope.entry.tasks.now) reach.now)) }
{
    for task in reach {
        report_lines(finder, scope, process, text_at(scope.tasks, *task));
    }
}

/// Reports what a process breaks in place.
fn report_placed(finder: &mut Finder, scope: Scope, process: usize, reach: &[u32], text: &Text)
    ensures { finder.new.first ≡ fold sooner finder.old.first (flat_map (line_breaks scope.entry.owners.now scope.entry.funcs process) (placed scope.entry.tasks.now reach.now text.now)) }
{
    report_lines(finder, scope, process, text.as_slice());
    report_tasks(finder, scope, process, reach);
}

fn report_processes(finder: &mut Finder, scope: Scope, reaches: &[Items<u32>], procs: &[Text])
    ensures { finder.new.first ≡ fold sooner finder.old.first (process_breaks scope.entry.owners.now scope.entry.funcs scope.entry.tasks.now reaches.now 0 procs.now) }
{
    for process in 0..procs.len() {
        report_placed(
            finder,
            scope,
            process,
            reach_at(reaches, process),
            &procs[process],
        );
    }
}

/// Whether a line is a disable.
fn is_disable(line: &Line) -> bool
    ensures { result ≡ is_disable line.now }
{
    matches!(line.form, Form::Disable(_))
}

fn report_disables(finder: &mut Finder, text: &Text)
    ensures { finder.new.first ≡ fold sooner finder.old.first (breaks_by is_disable 53 text.now) }
{
    for line in text.as_slice() {
        report_if(finder, is_disable(line), 53, line.at);
    }
}

/// Reports the disables of functions.
fn report_functions(finder: &mut Finder, texts: &[Text])
    ensures { finder.new.first ≡ fold sooner finder.old.first (flat_map (breaks_by is_disable 53) texts.now) }
{
    for text in texts {
        report_disables(finder, text);
    }
}

/// Reports the calls of imports by nets.
fn report_nets(finder: &mut Finder, funcs: usize, nets: &Text)
    ensures { finder.new.first ≡ fold sooner finder.old.first (breaks_by (calls_import funcs) 62 nets.now) }
{
    for line in nets.as_slice() {
        report_if(finder, calls_import(funcs, line), 62, line.at);
    }
}

/// Reports what breaks the rules in place, with the tasks that each process reaches.
pub(crate) fn report_places(
    alloc: Global,
    finder: &mut Finder,
    design: &Design,
    texts: &Texts,
    reaches: &[Items<u32>],
) -> Result<(), NoMemory>
    ensures { OnOk result (finder.new.first ≡ fold sooner finder.old.first (place_breaks (flat_of design.now) texts.now reaches.now)) }
{
    let owners = owners(alloc, design, texts, reaches)?;
    let scope = Scope {
        owners: owners.as_slice(),
        funcs: texts.funcs.len(),
        tasks: texts.tasks.as_slice(),
    };
    report_processes(finder, scope, reaches, texts.procs.as_slice());
    report_functions(finder, texts.funcs.as_slice());
    report_nets(finder, texts.funcs.len(), &texts.nets);
    Ok(())
}
