//! The graph of tasks and functions: tasks by their numbers, and functions behind them.
ghost use Rattle.std.specs.Prelude.{◌≡◌, if◌then◌else◌, nat_lt, ◌+◌, ◌++◌, ◌∷◌, [], OnOk, IfOk, flat_map, map, length};
ghost use Rattle.ck_call.specs.inner.Routines.{form_targets, node_targets, line_targets, text_targets, text_enables, routine_rows, enable_rows};

use crate::lines::{Form, Line};
use crate::nodes::Node;
use crate::targets::put_number;
use crate::texts::{Text, Texts};
use sqlite_items::Items;
use std::alloc::Global;
use xt_base::NoMemory;
use xt_graph::Graph;

/// How many tasks and functions there are.
#[derive(Clone, Copy, Debug, PartialEq, Eq)]
pub(crate) struct Counts {
    pub tasks: usize,
    pub funcs: usize,
}

impl Counts {
    pub(crate) fn new(texts: &Texts) -> Counts
        ensures tasks { result.tasks ≡ length texts.now.tasks }
        ensures funcs { result.funcs ≡ length texts.now.funcs }
    {
        Counts {
            tasks: texts.tasks.len(),
            funcs: texts.funcs.len(),
        }
    }
}

/// Adds the task that a statement enables.
pub(crate) fn put_enabled(into: &mut Items<u32>, counts: Counts, form: Form) -> Result<(), NoMemory>
    ensures { OnOk result (into.new ≡ into.old ++ form_targets counts.tasks form) }
{
    match form {
        Form::Enable(call) => put_below(into, counts.tasks, call.number),
        Form::Named(_) => Ok(()),
        Form::Held => Ok(()),
        Form::Wait => Ok(()),
        Form::Disable(_) => Ok(()),
        Form::Host(_, _) => Ok(()),
        Form::Other => Ok(()),
    }
}

/// Adds a number, if it is below a limit.
fn put_below(into: &mut Items<u32>, limit: usize, number: u32) -> Result<(), NoMemory>
    ensures { OnOk result (into.new ≡ into.old ++ (if nat_lt number limit then number ∷ [] else [])) }
{
    if (number as usize) < limit {
        put_number(into, number)
    } else {
        Ok(())
    }
}

/// Adds the number of a function among the routines.
fn put_function(into: &mut Items<u32>, tasks: usize, function: u32) -> Result<(), NoMemory>
    ensures { OnOk result (into.new ≡ into.old ++ (tasks + function) ∷ []) }
{
    let Some(number) = tasks.checked_add(function as usize) else {
        return Err(NoMemory);
    };
    match u32::try_from(number) {
        Ok(number) => put_number(into, number),
        Err(_) => Err(NoMemory),
    }
}

/// Adds the function that a node calls.
fn put_called(into: &mut Items<u32>, counts: Counts, node: Node) -> Result<(), NoMemory>
    ensures { OnOk result (into.new ≡ into.old ++ node_targets counts.tasks counts.funcs node) }
{
    match node {
        Node::Call(number, _) => put_if_function(into, counts, number),
        Node::Net(_) => Ok(()),
        Node::Var(_) => Ok(()),
        Node::Word(_) => Ok(()),
        Node::Resize => Ok(()),
        Node::Other => Ok(()),
    }
}

/// Adds what is called, if it is a function and no import.
fn put_if_function(into: &mut Items<u32>, counts: Counts, number: u32) -> Result<(), NoMemory>
    ensures { OnOk result (into.new ≡ into.old ++ (if nat_lt number counts.funcs then (counts.tasks + number) ∷ [] else [])) }
{
    if (number as usize) < counts.funcs {
        put_function(into, counts.tasks, number)
    } else {
        Ok(())
    }
}

fn put_all_called(into: &mut Items<u32>, counts: Counts, nodes: &[Node]) -> Result<(), NoMemory>
    ensures { OnOk result (into.new ≡ into.old ++ flat_map (node_targets counts.tasks counts.funcs) nodes.now) }
{
    for node in nodes {
        put_called(into, counts, *node)?;
    }
    Ok(())
}

/// Adds what a line enables and calls.
pub(crate) fn put_targets(
    into: &mut Items<u32>,
    counts: Counts,
    line: &Line,
) -> Result<(), NoMemory>
    ensures { OnOk result (into.new ≡ into.old ++ line_targets counts.tasks counts.funcs line.now) }
{
    put_enabled(into, counts, line.form)?;
    put_all_called(into, counts, line.nodes.as_slice())
}

/// What a text enables and calls.
pub(crate) fn targets(alloc: Global, counts: Counts, text: &Text) -> Result<Items<u32>, NoMemory>
    ensures { IfOk result (λ all. all ≡ text_targets counts.tasks counts.funcs text.now) }
{
    let mut all = Items::new(alloc);
    for line in text.as_slice() {
        put_targets(&mut all, counts, line)?;
    }
    Ok(all)
}

/// The tasks that a text enables.
pub(crate) fn enables(alloc: Global, counts: Counts, text: &Text) -> Result<Items<u32>, NoMemory>
    ensures { IfOk result (λ all. all ≡ text_enables counts.tasks text.now) }
{
    let mut all = Items::new(alloc);
    for line in text.as_slice() {
        put_enabled(&mut all, counts, line.form)?;
    }
    Ok(all)
}

/// Adds routines to a graph.
fn push_routines(
    alloc: Global,
    graph: &mut Graph,
    counts: Counts,
    texts: &[Text],
) -> Result<(), NoMemory>
    ensures { OnOk result (graph.new ≡ graph.old ++ map (text_targets counts.tasks counts.funcs) texts.now) }
{
    for text in texts {
        let row = targets(alloc, counts, text)?;
        graph.push(row.as_slice())?;
    }
    Ok(())
}

/// Which routines each task and function enables and calls.
pub(crate) fn routines(alloc: Global, texts: &Texts) -> Result<Graph, NoMemory>
    ensures { IfOk result (λ graph. graph ≡ routine_rows texts.now) }
{
    let counts = Counts::new(texts);
    let mut graph = Graph::new(alloc);
    push_routines(alloc, &mut graph, counts, texts.tasks.as_slice())?;
    push_routines(alloc, &mut graph, counts, texts.funcs.as_slice())?;
    Ok(graph)
}

/// Which tasks each task enables.
pub(crate) fn enabled_tasks(alloc: Global, texts: &Texts) -> Result<Graph, NoMemory>
    ensures { IfOk result (λ graph. graph ≡ enable_rows texts.now) }
{
    let counts = Counts::new(texts);
    let mut graph = Graph::new(alloc);
    for text in texts.tasks.as_slice() {
        let row = enables(alloc, counts, text)?;
        graph.push(row.as_slice())?;
    }
    Ok(graph)
}
