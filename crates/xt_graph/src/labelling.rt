//! The circles of a graph: a label for each node, the same for those that lead to one another.
ghost use Rattle.std.specs.Prelude.{◌≡◌, OnOk, IfOk, drop, fold, slice_set};
ghost use Rattle.xt_graph.specs.Graph.{AreCircles};
ghost use Rattle.xt_graph.specs.inner.Labelling.{Labelled, label_all, labelled};

use crate::finishing::finished;
use crate::graph::Graph;
use crate::searching::Search;
use std::alloc::Global;
use std::marker::Model;
use xt_base::NoMemory;

/// The labels so far, and the nodes that have one.
#[derive(Debug, Drop)]
struct Labels {
    search: Search,
    labels: Vec<u32>,
}

impl Model for Labels {
    ghost use Rattle.xt_graph.specs.inner.Labelling.{Labelled};

    ghost Value = { Labelled };

    ghost view = { λ l. record { search = l.search; labels = l.labels.items } };
}

impl Labels {
    /// Labels with a root, unless it has a label, all that lead to it and have none.
    fn take(&mut self, back: &Graph, root: u32) -> Result<(), NoMemory>
        ensures { OnOk result (self.new ≡ labelled back.now self.old root) }
    {
        let begun = self.search.found.len();
        self.search.find(root)?;
        self.search.spread(back, begun)?;
        label_all(&mut self.labels, &self.search.found, begun, root);
        Ok(())
    }

    /// Takes these roots, one after another.
    fn take_all(&mut self, back: &Graph, roots: &[u32]) -> Result<(), NoMemory>
        ensures { OnOk result (self.new ≡ fold (labelled back.now) self.old roots.now) }
    {
        for root in roots {
            self.take(back, *root)?;
        }
        Ok(())
    }
}

/// Gives a node a label.
#[tactic(auto, using(std::proofs::lemmas::List::set_past))]
fn label_one(labels: &mut [u32], node: u32, label: u32)
    ensures { labels.new ≡ slice_set labels.old node label }
{
    let place = node as usize;
    if place < labels.len() {
        labels[place] = label;
    }
}

/// Gives the nodes of a list, from a place on, a label.
fn label_all(labels: &mut [u32], nodes: &[u32], from: usize, label: u32)
    ensures { labels.new ≡ label_all labels.old (drop from nodes.now) label }
{
    for place in from..nodes.len() {
        label_one(labels, nodes[place], label);
    }
}

/// A label for each node: two nodes have the same label exactly where each leads to the other.
pub fn circles(alloc: Global, graph: &Graph) -> Result<Vec<u32>, NoMemory>
    ensures { IfOk result (λ labels. AreCircles graph.now labels.items) }
{
    let mut roots = finished(alloc, graph)?;
    roots.reverse();
    let back = graph.reversed(alloc)?;
    let mut labels = Labels {
        search: Search::new(alloc, graph.len())?,
        labels: vec![in alloc; 0; graph.len() as usize]?,
    };
    labels.take_all(&back, &roots)?;
    Ok(labels.labels)
}
