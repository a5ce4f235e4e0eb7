//! Rule 82: enables and calls nest 64 deep at most in a process, a net's calls are the first of those 64, and a process is no larger
//! than its limit with each loop's body counted once.
ghost use Rattle.std.specs.Prelude.{◌≡◌, ◌+◌, max, nat_le, ◌++◌, OnOk, IfOk, fold, map, replicate, slice_index_or};
ghost use Rattle.std.specs.List.{list_any};
ghost use Rattle.xt_base.specs.First.{sooner};
ghost use Rattle.xt_graph.specs.Graph.{row};
ghost use Rattle.ck_call.specs.inner.Breaks.{breaks_by};
ghost use Rattle.ck_call.specs.inner.Weights.{capped};
ghost use Rattle.ck_call.specs.inner.Measures.{nothing, measure_at, deeper, nesting, sizes, measured, lines_weight, text_weight, routine_weights, measured_next, measures, is_too_deep, text_measure, place_at, deep_processes, is_deep_net, nesting_breaks};

use crate::findings::report_if;
use crate::lines::Line;
use crate::routines::{Counts, put_targets, targets};
use crate::texts::{Text, Texts};
use crate::weights::add;
use el_design::{Design, Proc};
use sqlite_items::Items;
use std::alloc::Global;
use xt_base::{Finder, NoMemory, Place};
use xt_graph::Graph;

/// How deep enables and calls nest in a body, up to 65, and its size with the bodies of these, up to 20,001.
#[derive(Clone, Copy, Debug, PartialEq, Eq)]
pub(crate) struct Measure {
    pub depth: u32,
    pub size: u32,
}

/// The measure of a routine.
fn measure_at(table: &[Measure], routine: u32) -> Measure
    ensures { result ≡ measure_at table.now routine }
{
    match table.get(routine as usize) {
        Some(measure) => *measure,
        None => Measure { depth: 0, size: 0 },
    }
}

/// One deeper.
fn deeper(depth: u32) -> u32
    ensures { result ≡ deeper depth }
{
    if depth < 64 { depth + 1 } else { 65 }
}

/// The greater of two depths.
fn greater(one: u32, other: u32) -> u32
    ensures { result ≡ max one other }
{
    if one < other { other } else { one }
}

/// How deep calls of these routines nest, beside a depth.
fn nesting(table: &[Measure], routines: &[u32]) -> u32
    ensures { result ≡ nesting table.now routines.now }
{
    let mut depth = 0;
    for routine in routines {
        depth = greater(depth, deeper(measure_at(table, *routine).depth));
    }
    depth
}

/// A size with those of these routines.
fn grown(table: &[Measure], weight: u32, routines: &[u32]) -> u32
    ensures { result ≡ capped (weight + sizes table.now routines.now) }
{
    let mut size = add(weight, 0);
    for routine in routines {
        size = add(size, measure_at(table, *routine).size);
    }
    size
}

/// The measure of a body of this size by itself that enables and calls these routines.
fn measured(table: &[Measure], weight: u32, routines: &[u32]) -> Measure
    ensures { result ≡ measured table.now weight routines.now }
{
    Measure {
        depth: nesting(table, routines),
        size: grown(table, weight, routines),
    }
}

/// The size of a text by itself.
fn text_weight(text: &Text) -> u32
    ensures { result ≡ text_weight text.now }
{
    let mut weight = 0;
    for line in text.as_slice() {
        weight = add(weight, line.weight);
    }
    weight
}

/// Adds the sizes of texts by themselves.
fn put_weights(into: &mut Items<u32>, texts: &[Text]) -> Result<(), NoMemory>
    ensures { OnOk result (into.new ≡ into.old ++ map text_weight texts.now) }
{
    for text in texts {
        into.push(text_weight(text))?;
    }
    Ok(())
}

/// The sizes of tasks and functions by themselves.
fn routine_weights(alloc: Global, texts: &Texts) -> Result<Items<u32>, NoMemory>
    ensures { IfOk result (λ weights. weights ≡ routine_weights texts.now) }
{
    let mut weights = Items::new(alloc);
    put_weights(&mut weights, texts.tasks.as_slice())?;
    put_weights(&mut weights, texts.funcs.as_slice())?;
    Ok(weights)
}

/// The size of a routine by itself.
fn weight_at(weights: &[u32], routine: u32) -> u32
    ensures { result ≡ slice_index_or weights.now routine 0 }
{
    match weights.get(routine as usize) {
        Some(weight) => *weight,
        None => 0,
    }
}

/// Measures a routine, whose targets have been measured.
fn measure_next(table: &mut Items<Measure>, graph: &Graph, weights: &[u32], routine: u32)
    ensures { table.new ≡ measured_next graph.now weights.now table.old routine }
{
    let measure = measured(
        table.as_slice(),
        weight_at(weights, routine),
        graph.row(routine),
    );
    if (routine as usize) < table.len() {
        table.set(routine as usize, measure);
    }
}

fn measure_all(table: &mut Items<Measure>, graph: &Graph, weights: &[u32], order: &[u32])
    ensures { table.new ≡ fold (measured_next graph.now weights.now) table.old order.now }
{
    for routine in order {
        measure_next(table, graph, weights, *routine);
    }
}

fn nothing(alloc: Global, count: u32) -> Result<Items<Measure>, NoMemory>
    ensures { IfOk result (λ table. table ≡ replicate count nothing) }
{
    let table = vec![in alloc; Measure { depth: 0, size: 0 }; count as usize]?;
    Ok(Items::from_vec(table))
}

/// The measures of all routines, in an order in which each stands after those that it enables and calls.
fn measures(
    alloc: Global,
    texts: &Texts,
    graph: &Graph,
    order: &[u32],
) -> Result<Items<Measure>, NoMemory>
    ensures { IfOk result (λ table. table ≡ measures graph.now (routine_weights texts.now) order.now) }
{
    let weights = routine_weights(alloc, texts)?;
    let mut table = nothing(alloc, graph.len())?;
    measure_all(&mut table, graph, weights.as_slice(), order);
    Ok(table)
}

// ---- breaks

fn is_too_deep(measure: Measure) -> bool
    ensures { result ≡ is_too_deep measure }
{
    65 <= measure.depth || 20_000 <= measure.size
}

fn text_measure(
    alloc: Global,
    table: &[Measure],
    counts: Counts,
    text: &Text,
) -> Result<Measure, NoMemory>
    ensures { IfOk result (λ m. m ≡ text_measure table.now counts.tasks counts.funcs text.now) }
{
    let routines = targets(alloc, counts, text)?;
    Ok(measured(table, text_weight(text), routines.as_slice()))
}

/// The place of a process.
fn place_at(places: &[Place], process: usize) -> Place
    ensures { result ≡ place_at places.now process }
{
    match places.get(process) {
        Some(place) => *place,
        None => Place {
            file: 0,
            line: 0,
            instance: 0,
        },
    }
}

/// Reports processes that nest too deep or are too large.
fn report_processes(
    alloc: Global,
    finder: &mut Finder,
    table: &[Measure],
    counts: Counts,
    places: &[Place],
    procs: &[Text],
) -> Result<(), NoMemory>
    ensures { OnOk result (finder.new.first ≡ fold sooner finder.old.first (deep_processes table.now counts.tasks counts.funcs places.now 0 procs.now)) }
{
    for process in 0..procs.len() {
        let measure = text_measure(alloc, table, counts, &procs[process])?;
        report_if(finder, is_too_deep(measure), 82, place_at(places, process));
    }
    Ok(())
}

/// Whether one of these routines has no room for 64 in one another.
fn any_deep(table: &[Measure], routines: &[u32]) -> bool
    ensures { result ≡ list_any (λ r. nat_le 64 (measure_at table.now r).depth) routines.now }
{
    for routine in routines {
        if 64 <= measure_at(table, *routine).depth {
            return true;
        }
    }
    false
}

fn is_deep_net(
    alloc: Global,
    table: &[Measure],
    counts: Counts,
    line: &Line,
) -> Result<bool, NoMemory>
    ensures { IfOk result (λ deep. deep ≡ is_deep_net table.now counts.tasks counts.funcs line.now) }
{
    let mut routines = Items::new(alloc);
    put_targets(&mut routines, counts, line)?;
    Ok(any_deep(table, routines.as_slice()))
}

/// Reports nets whose calls nest too deep.
fn report_nets(
    alloc: Global,
    finder: &mut Finder,
    table: &[Measure],
    counts: Counts,
    nets: &Text,
) -> Result<(), NoMemory>
    ensures { OnOk result (finder.new.first ≡ fold sooner finder.old.first (breaks_by (is_deep_net table.now counts.tasks counts.funcs) 82 nets.now)) }
{
    for line in nets.as_slice() {
        let deep = is_deep_net(alloc, table, counts, line)?;
        report_if(finder, deep, 82, line.at);
    }
    Ok(())
}

/// The places of processes.
fn places(alloc: Global, procs: &[Proc]) -> Result<Items<Place>, NoMemory>
    ensures { IfOk result (λ all. all ≡ map (λ p. p.place) procs.now) }
{
    let mut all = Items::new(alloc);
    for proc in procs {
        all.push(proc.place)?;
    }
    Ok(all)
}

/// Reports what nests too deep or is too large, with an order of the routines.
pub(crate) fn report_nesting(
    alloc: Global,
    finder: &mut Finder,
    design: &Design,
    texts: &Texts,
    graph: &Graph,
    order: &[u32],
) -> Result<(), NoMemory>
    ensures { OnOk result (finder.new.first ≡ fold sooner finder.old.first (nesting_breaks (measures graph.now (routine_weights texts.now) order.now) (map (λ p. p.place) design.now.procs) texts.now)) }
{
    let counts = Counts::new(texts);
    let table = measures(alloc, texts, graph, order)?;
    let places = places(alloc, design.procs.as_slice())?;
    report_processes(
        alloc,
        finder,
        table.as_slice(),
        counts,
        places.as_slice(),
        texts.procs.as_slice(),
    )?;
    report_nets(alloc, finder, table.as_slice(), counts, &texts.nets)
}
