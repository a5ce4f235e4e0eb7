//! The lines of all bodies of a design.
ghost use Rattle.std.specs.Prelude.{◌≡◌, ◌++◌, ◌∷◌, [], OnOk, IfOk, List, map, flat_map};
ghost use Rattle.el_design.specs.View.{statement_of, proc_of, task_of, func_of, net_of, expr_of, flat_of};
ghost use Rattle.ck_call.specs.declared.lines.Form.TheVariants as form;
ghost use Rattle.ck_call.specs.inner.Nodes.{named};
ghost use Rattle.ck_call.specs.inner.Lines.{lines};
ghost use Rattle.ck_call.specs.inner.Texts.{net_lines, texts_of};

use crate::lines::{Form, Line, put_lines};
use crate::nodes::put_nodes;
use el_design::{Design, Func, Net, Proc, Stmt, TExpr, Task};
use sqlite_items::Items;
use std::alloc::Global;
use xt_base::{NoMemory, Place};

/// The lines of a body, one for each statement.
pub(crate) type Text = Items<Line>;

/// The lines of each process, task and function, and of the nets' expressions.
#[derive(Debug, Drop)]
pub(crate) struct Texts {
    pub procs: Items<Text>,
    pub tasks: Items<Text>,
    pub funcs: Items<Text>,
    pub nets: Text,
}

/// The lines of a body.
pub(crate) fn text(alloc: Global, body: &Stmt) -> Result<Text, NoMemory>
    ensures { IfOk result (λ text. text ≡ lines (statement_of body.now)) }
{
    let mut text = Items::new(alloc);
    put_lines(alloc, &mut text, body)?;
    Ok(text)
}

/// Adds the lines of a body.
fn put_text(alloc: Global, into: &mut Items<Text>, body: &Stmt) -> Result<(), NoMemory>
    ensures { OnOk result (into.new ≡ into.old ++ lines (statement_of body.now) ∷ []) }
{
    let text = text(alloc, body)?;
    into.push(text)?;
    Ok(())
}

/// The lines of processes.
fn process_texts(alloc: Global, procs: &[Proc]) -> Result<Items<Text>, NoMemory>
    ensures { IfOk result (λ all. all ≡ map (λ p. lines p.body) (map proc_of procs.now)) }
{
    let mut all = Items::new(alloc);
    for proc in procs {
        put_text(alloc, &mut all, &proc.body)?;
    }
    Ok(all)
}

/// The lines of tasks.
fn task_texts(alloc: Global, tasks: &[Task]) -> Result<Items<Text>, NoMemory>
    ensures { IfOk result (λ all. all ≡ map (λ t. lines t.body) (map task_of tasks.now)) }
{
    let mut all = Items::new(alloc);
    for task in tasks {
        put_text(alloc, &mut all, &task.body)?;
    }
    Ok(all)
}

/// The lines of functions.
fn function_texts(alloc: Global, funcs: &[Func]) -> Result<Items<Text>, NoMemory>
    ensures { IfOk result (λ all. all ≡ map (λ f. lines f.body) (map func_of funcs.now)) }
{
    let mut all = Items::new(alloc);
    for func in funcs {
        put_text(alloc, &mut all, &func.body)?;
    }
    Ok(all)
}

/// Adds the line of a net's expression.
fn put_value(alloc: Global, into: &mut Text, at: Place, value: &TExpr) -> Result<(), NoMemory>
    ensures { OnOk result (into.new ≡ into.old ++ record { at = at; form = form.Other; nodes = named (expr_of value.now); stored = []; weight = 0 } ∷ []) }
{
    let mut nodes = Items::new(alloc);
    put_nodes(&mut nodes, value)?;
    into.push(Line {
        at,
        form: Form::Other,
        nodes,
        stored: Items::new(alloc),
        weight: 0,
    })?;
    Ok(())
}

/// Adds the line of a net, if it has an expression.
fn put_net(alloc: Global, into: &mut Text, net: &Net) -> Result<(), NoMemory>
    ensures { OnOk result (into.new ≡ into.old ++ net_lines (net_of net.now)) }
{
    match &net.value {
        Some(value) => put_value(alloc, into, net.place, value),
        None => Ok(()),
    }
}

/// The lines of nets.
fn net_lines(alloc: Global, nets: &[Net]) -> Result<Text, NoMemory>
    ensures { IfOk result (λ all. all ≡ flat_map net_lines (map net_of nets.now)) }
{
    let mut all = Items::new(alloc);
    for net in nets {
        put_net(alloc, &mut all, net)?;
    }
    Ok(all)
}

impl Texts {
    /// The lines of a design.
    pub(crate) fn new(alloc: Global, design: &Design) -> Result<Texts, NoMemory>
        ensures { IfOk result (λ texts. texts ≡ texts_of (flat_of design.now)) }
    {
        let procs = process_texts(alloc, design.procs.as_slice())?;
        let tasks = task_texts(alloc, design.tasks.as_slice())?;
        let funcs = function_texts(alloc, design.funcs.as_slice())?;
        let nets = net_lines(alloc, design.nets.as_slice())?;
        Ok(Texts {
            procs,
            tasks,
            funcs,
            nets,
        })
    }
}
