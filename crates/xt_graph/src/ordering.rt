//! An order of the nodes in which each stands behind those that it points to.
ghost use Rattle.std.specs.Prelude.{◌≡◌, false, IfOk, MatchOption, length, replicate};
ghost use Rattle.xt_graph.specs.Graph.{HasCircle, IsOrder};
ghost use Rattle.xt_graph.specs.inner.Ordering.{are_marked, stand_behind};

use crate::finishing::finished;
use crate::graph::Graph;
use crate::searching::is_marked;
use std::alloc::Global;
use xt_base::NoMemory;

/// Whether all of these nodes are marked.
fn are_marked(marks: &[bool], nodes: &[u32]) -> bool
    ensures { result ≡ are_marked marks.now nodes.now }
{
    nodes.iter().all(|node| is_marked(marks, *node))
}

/// Whether each node of a list stands behind those that it points to.
fn stand_behind(alloc: Global, graph: &Graph, nodes: &[u32]) -> Result<bool, NoMemory>
    ensures { IfOk result (λ so. so ≡ stand_behind graph.now (replicate (length graph.now) false) nodes.now) }
{
    let mut marks = vec![in alloc; false; graph.len() as usize]?;
    for node in nodes {
        if !are_marked(&marks, graph.row(*node)) {
            return Ok(false);
        }
        if let Some(mark) = marks.get_mut(*node as usize) {
            *mark = true;
        }
    }
    Ok(true)
}

/// The nodes, each once, behind those that it points to; None exactly where some node leads back to itself.
pub fn order(alloc: Global, graph: &Graph) -> Result<Option<Vec<u32>>, NoMemory>
    ensures { IfOk result (λ order. MatchOption order (HasCircle graph.now) (λ nodes. IsOrder graph.now nodes.items × (HasCircle graph.now → ⊥))) }
{
    let nodes = finished(alloc, graph)?;
    if stand_behind(alloc, graph, &nodes)? {
        Ok(Some(nodes))
    } else {
        Ok(None)
    }
}
