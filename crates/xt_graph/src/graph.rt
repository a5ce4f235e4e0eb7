//! Directed graphs by compressed rows.
ghost use Rattle.std.specs.Prelude.{◌≡◌, ◌+◌, ◌≤◌, ◌<◌, ◌++◌, ◌∷◌, [], OnOk, OnErr, IfOk, fold, length, map, replicate, slice_index_or};
ghost use Rattle.xt_graph.specs.Graph.{row, IsReverse};
ghost use Rattle.xt_graph.specs.inner.Reversing.{noted, noted_all, turned};

use std::alloc::Global;
use std::marker::Model;
use xt_base::NoMemory;

/// Where the targets of a node stand.
#[derive(Clone, Copy, Debug, PartialEq, Eq)]
struct Row {
    from: usize,
    to: usize,
}

/// A directed graph on the nodes 0, 1, .., which contracts see as the list of the nodes that each points to.
///
/// Where a node points to a number that no node has, it points nowhere.
#[derive(Debug, Drop)]
pub struct Graph {
    rows: Vec<Row>,
    targets: Vec<u32>,
}

impl Model for Graph {
    ghost use Rattle.std.specs.Prelude.{◌≤◌, List, ℕ, All, length, map, slice_range};

    ghost Value = { List (List ℕ) };

    ghost view = { λ g. map (λ r. slice_range g.targets.items r.from r.to) g.rows.items };

    ghost invariant = { λ g. All (λ r. (r.from ≤ r.to) × (r.to ≤ length g.targets.items)) g.rows.items × (length g.rows.items ≤ 4294967295) };
}

impl Graph {
    /// A graph without nodes.
    pub fn new(alloc: Global) -> Graph
        ensures { result ≡ [] }
    {
        Graph {
            rows: Vec::new(alloc),
            targets: Vec::new(alloc),
        }
    }

    /// Adds the next node, which points to these. A graph has room for 4,294,967,295 nodes.
    pub fn push(&mut self, targets: &[u32]) -> Result<(), NoMemory>
        ensures ok { OnOk result (self.new ≡ self.old ++ targets.now ∷ []) }
        ensures err { OnErr result (self.new ≡ self.old) }
    {
        if self.rows.len() >= u32::MAX as usize {
            return Err(NoMemory);
        }
        let from = self.targets.len();
        self.targets.extend_from_slice(targets)?;
        let to = self.targets.len();
        self.rows.push(Row { from, to })?;
        Ok(())
    }

    /// How many nodes there are.
    pub fn len(&self) -> u32
        ensures { result ≡ length self.now }
    {
        self.rows.len() as u32
    }

    /// The nodes that one points to.
    pub fn row(&self, node: u32) -> &[u32]
        ensures { result.now ≡ row self.now node }
    {
        match self.rows.get(node as usize) {
            Some(row) => &self.targets[row.from..row.to],
            None => &[],
        }
    }

    /// The graph with each edge turned round.
    pub fn reversed(&self, alloc: Global) -> Result<Graph, NoMemory>
        ensures { IfOk result (λ turned. IsReverse self.now turned) }
    {
        let mut sources = empty_rows(alloc, self.len())?;
        for node in 0..self.len() {
            note_all(&mut sources, self.row(node), node)?;
        }
        of_rows(alloc, &sources)
    }
}

/// So many empty rows.
fn empty_rows(alloc: Global, count: u32) -> Result<Vec<Vec<u32>>, NoMemory>
    ensures { IfOk result (λ rows. map (λ r. r.items) rows.items ≡ replicate count []) }
{
    let mut rows = Vec::new(alloc);
    for _count in 0..count {
        rows.push(Vec::new(alloc))?;
    }
    Ok(rows)
}

/// Adds a node to a row, if there is one.
fn note(rows: &mut Vec<Vec<u32>>, target: u32, node: u32) -> Result<(), NoMemory>
    ensures { OnOk result (map (λ r. r.items) rows.new.items ≡ noted node (map (λ r. r.items) rows.old.items) target) }
{
    if let Some(row) = rows.get_mut(target as usize) {
        row.push(node)?;
    }
    Ok(())
}

/// Adds a node to each of these rows.
fn note_all(rows: &mut Vec<Vec<u32>>, targets: &[u32], node: u32) -> Result<(), NoMemory>
    ensures { OnOk result (map (λ r. r.items) rows.new.items ≡ noted_all node (map (λ r. r.items) rows.old.items) targets.now) }
{
    for target in targets {
        note(rows, *target, node)?;
    }
    Ok(())
}

/// The graph with these rows.
fn of_rows(alloc: Global, rows: &[Vec<u32>]) -> Result<Graph, NoMemory>
    ensures { IfOk result (λ graph. graph ≡ map (λ r. r.items) rows.now) }
{
    let mut graph = Graph::new(alloc);
    for row in rows {
        graph.push(row)?;
    }
    Ok(graph)
}
