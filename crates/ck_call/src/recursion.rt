//! Rule 51: no task or function enables or calls one that leads back to it.
ghost use Rattle.std.specs.Prelude.{◌≡◌, ◌+◌, ◌<◌, ◌++◌, ◌==◌, OnOk, IfOk, fold, length};
ghost use Rattle.std.specs.List.{list_any};
ghost use Rattle.xt_base.specs.First.{sooner};
ghost use Rattle.ck_call.specs.inner.Breaks.{breaks_by};
ghost use Rattle.ck_call.specs.inner.Routines.{label, leads_back, circle_breaks, recursion_breaks, routine_rows};

use crate::findings::report_if;
use crate::lines::Line;
use crate::routines::{Counts, put_targets};
use crate::texts::{Text, Texts};
use sqlite_items::Items;
use std::alloc::Global;
use xt_base::{Finder, NoMemory};
use xt_graph::Graph;

/// The label of a routine.
fn label(labels: &[u32], routine: u32) -> u32
    ensures { result ≡ label labels.now routine }
{
    match labels.get(routine as usize) {
        Some(label) => *label,
        None => 0,
    }
}

/// Whether one of the routines has the same label.
fn any_same(labels: &[u32], routines: &[u32], from: u32) -> bool
    ensures { result ≡ list_any (λ b. label labels.now b == label labels.now from) routines.now }
{
    for routine in routines {
        if label(labels, *routine) == label(labels, from) {
            return true;
        }
    }
    false
}

/// Whether a line of a routine enables or calls one that leads back to it.
fn leads_back(
    alloc: Global,
    labels: &[u32],
    counts: Counts,
    from: u32,
    line: &Line,
) -> Result<bool, NoMemory>
    ensures { IfOk result (λ back. back ≡ leads_back labels.now counts.tasks counts.funcs from line.now) }
{
    let mut targets = Items::new(alloc);
    put_targets(&mut targets, counts, line)?;
    Ok(any_same(labels, targets.as_slice(), from))
}

fn report_text(
    alloc: Global,
    finder: &mut Finder,
    labels: &[u32],
    counts: Counts,
    from: u32,
    text: &Text,
) -> Result<(), NoMemory>
    ensures { OnOk result (finder.new.first ≡ fold sooner finder.old.first (breaks_by (leads_back labels.now counts.tasks counts.funcs from) 51 text.now)) }
{
    for line in text.as_slice() {
        let back = leads_back(alloc, labels, counts, from, line)?;
        report_if(finder, back, 51, line.at);
    }
    Ok(())
}

/// Reports what routines break, of which the first has this number.
fn report_texts(
    alloc: Global,
    finder: &mut Finder,
    labels: &[u32],
    counts: Counts,
    first: u32,
    texts: &[Text],
) -> Result<(), NoMemory>
    requires { first + length texts.now < 4294967296 }
    ensures { OnOk result (finder.new.first ≡ fold sooner finder.old.first (circle_breaks labels.now counts.tasks counts.funcs first texts.now)) }
{
    let mut from = first;
    for text in texts {
        report_text(alloc, finder, labels, counts, from, text)?;
        from += 1;
    }
    Ok(())
}

/// Reports each line that leads back to its own routine; two routines have one label exactly where each leads to the other.
pub(crate) fn report_recursion(
    alloc: Global,
    finder: &mut Finder,
    labels: &[u32],
    texts: &Texts,
    graph: &Graph,
) -> Result<(), NoMemory>
    requires { graph.now ≡ routine_rows texts.now }
    ensures { OnOk result (finder.new.first ≡ fold sooner finder.old.first (recursion_breaks labels.now texts.now)) }
{
    let counts = Counts::new(texts);
    let routines = graph.len();
    report_texts(alloc, finder, labels, counts, 0, texts.tasks.as_slice())?;
    report_texts(
        alloc,
        finder,
        labels,
        counts,
        counts.tasks as u32,
        texts.funcs.as_slice(),
    )
}
