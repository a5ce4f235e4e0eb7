//! The tasks that processes reach by enables.
ghost use Rattle.std.specs.Prelude.{◌≡◌, ◌++◌, ◌∷◌, [], OnOk, IfOk, length, slice_index_or, false};
ghost use Rattle.ck_call.specs.inner.Routines.{enable_rows};
ghost use Rattle.ck_call.specs.inner.Placed.{IsReach, marked_to, AreReaches};

use crate::routines::{Counts, enabled_tasks, enables};
use crate::targets::put_number;
use crate::texts::Texts;
use sqlite_items::Items;
use std::alloc::Global;
use xt_base::NoMemory;
use xt_graph::{Graph, reached};

/// Whether a node has a mark.
fn is_marked(marks: &[bool], node: u32) -> bool
    ensures { result ≡ slice_index_or marks.now node false }
{
    match marks.get(node as usize) {
        Some(mark) => *mark,
        None => false,
    }
}

/// The nodes below a limit that have a mark.
fn marked(alloc: Global, marks: &[bool], limit: u32) -> Result<Items<u32>, NoMemory>
    ensures { IfOk result (λ all. all ≡ marked_to marks.now limit) }
{
    let mut all = Items::new(alloc);
    for node in 0..limit {
        if is_marked(marks, node) {
            put_number(&mut all, node)?;
        }
    }
    Ok(all)
}

/// The tasks that are reached from some.
fn reached_tasks(alloc: Global, graph: &Graph, from: &[u32]) -> Result<Items<u32>, NoMemory>
    ensures { IfOk result (λ reach. IsReach graph.now from.now reach) }
{
    let marks = reached(alloc, graph, from)?;
    marked(alloc, &marks, graph.len())
}

/// The tasks that each process reaches.
pub(crate) fn reaches(alloc: Global, texts: &Texts) -> Result<Items<Items<u32>>, NoMemory>
    ensures { IfOk result (λ all. AreReaches texts.now all (length texts.now.procs)) }
{
    let counts = Counts::new(texts);
    let graph = enabled_tasks(alloc, texts)?;
    let mut all = Items::new(alloc);
    for text in texts.procs.as_slice() {
        let from = enables(alloc, counts, text)?;
        let reach = reached_tasks(alloc, &graph, from.as_slice())?;
        all.push(reach)?;
    }
    Ok(all)
}
