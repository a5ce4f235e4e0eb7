//! The pass on tasks, functions and imports.
ghost use Rattle.std.specs.Prelude.{◌≡◌, OnOk, IfOk};
ghost use Rattle.el_design.specs.Rules.{IsBroken};
ghost use Rattle.el_design.specs.Sound.{IsSound};
ghost use Rattle.el_design.specs.View.{flat_of};
ghost use Rattle.xt_graph.specs.Graph.{HasCircle, IsOrder};
ghost use Rattle.ck_call.specs.Judged.{Judges};
ghost use Rattle.ck_call.specs.inner.Texts.{texts_of};
ghost use Rattle.ck_call.specs.inner.Routines.{routine_rows};
ghost use Rattle.ck_call.specs.inner.Listed.{IsListed, IsFoundOf, UsesBroken};

use crate::arguments::report_misfits;
use crate::measures::report_nesting;
use crate::places::report_places;
use crate::purity::report_impure;
use crate::reach::reaches;
use crate::recursion::report_recursion;
use crate::routines::routines;
use crate::texts::Texts;
use el_design::Design;
use std::alloc::Global;
use xt_base::{Fail, Finder, NoMemory, Refusal};
use xt_graph::{Graph, circles, order};

/// Checks the rules on tasks, functions and imports: purity of functions (50), recursion (51), arguments (52), disables (53), calls
/// of the host inside expressions (62), and how deep enables and calls nest and how large processes are (82).
///
/// Where a task or function leads back to itself, the last three aren't asked. A refusal names the first break by instance, then
/// by place, then by the rule's number.
pub fn check_calls(alloc: Global, design: &Design) -> Result<(), Fail>
    requires { IsSound (flat_of design.now) }
    ensures { Judges (IsBroken (flat_of design.now) 11) result }
{
    match first_break(alloc, design)? {
        None => Ok(()),
        Some(first) => Err(Fail::Refused(first)),
    }
}

/// The first break, if there is one.
fn first_break(alloc: Global, design: &Design) -> Result<Option<Refusal>, NoMemory>
    requires { IsSound (flat_of design.now) }
    ensures { IfOk result (IsFoundOf (IsBroken (flat_of design.now) 11)) }
{
    let texts = Texts::new(alloc, design)?;
    let mut finder = Finder::new();
    report_impure(alloc, &mut finder, design)?;
    report_misfits(&mut finder, design, &texts);
    report_uses(alloc, &mut finder, design, &texts)?;
    Ok(finder.first)
}

/// Reports what breaks the rules on what tasks and functions enable and call.
fn report_uses(
    alloc: Global,
    finder: &mut Finder,
    design: &Design,
    texts: &Texts,
) -> Result<(), NoMemory>
    requires sound { IsSound (flat_of design.now) }
    requires texts { texts.now ≡ texts_of (flat_of design.now) }
    ensures { OnOk result (IsListed (UsesBroken (flat_of design.now)) finder.old.first finder.new.first) }
{
    let graph = routines(alloc, texts)?;
    match order(alloc, &graph)? {
        None => report_circles(alloc, finder, design, texts, &graph),
        Some(order) => report_finite(alloc, finder, design, texts, &graph, &order),
    }
}

/// Reports recursion, where there is some.
fn report_circles(
    alloc: Global,
    finder: &mut Finder,
    design: &Design,
    texts: &Texts,
    graph: &Graph,
) -> Result<(), NoMemory>
    requires texts { texts.now ≡ texts_of (flat_of design.now) }
    requires graph { graph.now ≡ routine_rows texts.now }
    requires circle { HasCircle graph.now }
    ensures { OnOk result (IsListed (UsesBroken (flat_of design.now)) finder.old.first finder.new.first) }
{
    let labels = circles(alloc, graph)?;
    report_recursion(alloc, finder, &labels, texts, graph)
}

/// Reports what breaks the rules in place and on nesting, where there is no recursion.
fn report_finite(
    alloc: Global,
    finder: &mut Finder,
    design: &Design,
    texts: &Texts,
    graph: &Graph,
    order: &[u32],
) -> Result<(), NoMemory>
    requires sound { IsSound (flat_of design.now) }
    requires texts { texts.now ≡ texts_of (flat_of design.now) }
    requires graph { graph.now ≡ routine_rows texts.now }
    requires order { IsOrder graph.now order.now × (HasCircle graph.now → ⊥) }
    ensures { OnOk result (IsListed (UsesBroken (flat_of design.now)) finder.old.first finder.new.first) }
{
    let reaches = reaches(alloc, texts)?;
    report_places(alloc, finder, design, texts, reaches.as_slice())?;
    report_nesting(alloc, finder, design, texts, graph, order)
}
