//! What is reached from some nodes.
ghost use Rattle.std.specs.Prelude.{◌≡◌, ◌-◌, [], false, OnOk, IfOk, length, replicate, slice_get};
ghost use Rattle.xt_graph.specs.Graph.{AreReached};
ghost use Rattle.xt_graph.specs.inner.Searching.{Found, is_marked, find_node, find_all, spread};

use crate::graph::Graph;
use std::alloc::Global;
use std::marker::Model;
use xt_base::NoMemory;

/// Whether a node is marked. A number that is no node counts as marked.
pub(crate) fn is_marked(marks: &[bool], node: u32) -> bool
    ensures { result ≡ is_marked marks.now node }
{
    marks.get(node as usize).copied().unwrap_or(true)
}

/// The nodes that were found, in order, and a mark for each.
#[derive(Debug, Drop)]
pub(crate) struct Search {
    pub marks: Vec<bool>,
    pub found: Vec<u32>,
}

impl Model for Search {
    ghost use Rattle.xt_graph.specs.inner.Searching.{Found};

    ghost Value = { Found };

    ghost view = { λ s. record { marks = s.marks.items; found = s.found.items } };
}

impl Search {
    /// Nothing found of so many nodes.
    pub fn new(alloc: Global, nodes: u32) -> Result<Search, NoMemory>
        ensures { IfOk result (λ s. s ≡ record { marks = replicate nodes false; found = [] }) }
    {
        Ok(Search {
            marks: vec![in alloc; false; nodes as usize]?,
            found: Vec::new(alloc),
        })
    }

    /// Finds a node, unless it is found.
    pub fn find(&mut self, node: u32) -> Result<(), NoMemory>
        ensures { OnOk result (self.new ≡ find_node self.old node) }
    {
        if !is_marked(&self.marks, node) {
            self.found.push(node)?;
            self.marks[node as usize] = true;
        }
        Ok(())
    }

    /// Finds these nodes.
    pub fn find_all(&mut self, nodes: &[u32]) -> Result<(), NoMemory>
        ensures { OnOk result (self.new ≡ find_all self.old nodes.now) }
    {
        for node in nodes {
            self.find(*node)?;
        }
        Ok(())
    }

    /// The node that was found at this place, if so many were.
    fn found_at(&self, place: usize) -> Option<u32>
        ensures { result ≡ slice_get self.now.found place }
    {
        self.found.get(place).copied()
    }

    /// Finds all to which those found from a place on lead.
    pub fn spread(&mut self, graph: &Graph, from: usize) -> Result<(), NoMemory>
        ensures { OnOk result (self.new ≡ spread graph.now (length self.old.marks - from) from self.old) }
    {
        for turn in from..self.marks.len() {
            let Some(node) = self.found_at(turn) else {
                break;
            };
            self.find_all(graph.row(node))?;
        }
        Ok(())
    }
}

/// Marks for the nodes that are reached from some: these, those that they point to, and so on.
pub fn reached(alloc: Global, graph: &Graph, from: &[u32]) -> Result<Vec<bool>, NoMemory>
    ensures { IfOk result (λ marks. AreReached graph.now from.now marks.items) }
{
    let mut search = Search::new(alloc, graph.len())?;
    search.find_all(from)?;
    search.spread(graph, 0)?;
    Ok(search.marks)
}
