//! The nodes in the order in which a walk depth first leaves them.
ghost use Rattle.std.specs.Prelude.{◌≡◌, ◌++◌, OnOk, IfOk, map};
ghost use Rattle.xt_graph.specs.declared.finishing.Visit.TheVariants as visit;
ghost use Rattle.xt_graph.specs.inner.Finishing.{Walking, begun, visited, IsFinishing};

use crate::graph::Graph;
use crate::searching::is_marked;
use std::alloc::Global;
use std::marker::Model;
use xt_base::NoMemory;

/// What is to be done with a node: it is entered, and finished when all behind it was.
#[derive(Clone, Copy, Debug, PartialEq, Eq)]
enum Visit {
    Enter(u32),
    Finish(u32),
}

/// A walk: a mark for each node that was entered, what is to be done, the last first, and the nodes that are finished.
#[derive(Debug, Drop)]
struct Walk {
    marks: Vec<bool>,
    todo: Vec<Visit>,
    finished: Vec<u32>,
}

impl Model for Walk {
    ghost use Rattle.xt_graph.specs.inner.Finishing.{Walking};

    ghost Value = { Walking };

    ghost view = { λ w. record { marks = w.marks.items; todo = w.todo.items; finished = w.finished.items } };
}

impl Walk {
    /// A walk that has all nodes to enter.
    fn new(alloc: Global, nodes: u32) -> Result<Walk, NoMemory>
        ensures { IfOk result (λ w. w ≡ begun nodes) }
    {
        let mut todo = Vec::new(alloc);
        for node in 0..nodes {
            todo.push(Visit::Enter(node))?;
        }
        Ok(Walk {
            marks: vec![in alloc; false; nodes as usize]?,
            todo,
            finished: Vec::new(alloc),
        })
    }

    /// Does one thing with a node.
    fn visit(&mut self, graph: &Graph, visit: Visit) -> Result<(), NoMemory>
        ensures { OnOk result (self.new ≡ visited graph.now self.old visit) }
    {
        match visit {
            Visit::Enter(node) => self.enter(graph, node),
            Visit::Finish(node) => Ok(self.finished.push(node)?),
        }
    }

    /// Enters a node, unless it was entered: it is finished behind those that it points to.
    fn enter(&mut self, graph: &Graph, node: u32) -> Result<(), NoMemory>
        ensures { OnOk result (self.new ≡ visited graph.now self.old (visit.Enter node)) }
    {
        if is_marked(&self.marks, node) {
            return Ok(());
        }
        self.marks[node as usize] = true;
        self.todo.push(Visit::Finish(node))?;
        enter_all(&mut self.todo, graph.row(node))
    }
}

/// Has these nodes entered.
fn enter_all(todo: &mut Vec<Visit>, nodes: &[u32]) -> Result<(), NoMemory>
    ensures { OnOk result (todo.new.items ≡ todo.old.items ++ map visit.Enter nodes.now) }
{
    for node in nodes {
        todo.push(Visit::Enter(*node))?;
    }
    Ok(())
}

/// The nodes of a graph, each once, in the order in which they are finished.
pub(crate) fn finished(alloc: Global, graph: &Graph) -> Result<Vec<u32>, NoMemory>
    ensures { IfOk result (λ all. IsFinishing graph.now all.items) }
{
    let mut walk = Walk::new(alloc, graph.len())?;
    while let Some(visit) = walk.todo.pop() {
        walk.visit(graph, visit)?;
    }
    Ok(walk.finished)
}
