//! The order in which nets are evaluated, or the first net whose value depends on itself.
ghost use Rattle.std.specs.Prelude.{◌≡◌, ◌∷◌, [], ℕ, IfOk, MatchResult, cond, fold, map, length};
ghost use Rattle.std.specs.List.{list_any};
ghost use Rattle.xt_base.specs.First.{sooner, IsFirst};
ghost use Rattle.xt_base.specs.declared.refusals.Place.{Place};
ghost use Rattle.xt_graph.specs.Graph.{HasCircle};
ghost use Rattle.el_design.specs.View.{net_of, flat_of};
ghost use Rattle.el_design.specs.Sound.{IsSound};
ghost use Rattle.el_design.specs.Rules.{Breaks, IsBroken, IsOrder};
ghost use Rattle.ck_nets.specs.Refusals.{Refuses};
ghost use Rattle.ck_nets.specs.inner.Reading.{read_by_net, graph_of, has_label, break_of, breaks_from};

use crate::naming::add_nets;
use el_design::{Design, Net, NetOrder};
use std::alloc::Global;
use xt_base::{Fail, Finder, NoMemory, Refusal, Rule};
use xt_graph::{Graph, circles, order};

/// The number of the rule on nets whose values depend on themselves.
const CIRCULAR: u16 = 73;

/// The nets that a net's expression names.
#[tactic(auto, using(crate::proofs::Names::nets_named))]
fn nets_read(alloc: Global, net: &Net) -> Result<Vec<u32>, NoMemory>
    ensures { IfOk result (λ nets. nets.items ≡ read_by_net (net_of net.now)) }
{
    let mut nets = Vec::new(alloc);
    match &net.value {
        None => Ok(nets),
        Some(value) => {
            add_nets(&mut nets, value)?;
            Ok(nets)
        }
    }
}

/// The graph of nets: each points to those that it reads.
fn graph_of(alloc: Global, nets: &[Net]) -> Result<Graph, NoMemory>
    ensures { IfOk result (λ graph. graph ≡ map read_by_net (map net_of nets.now)) }
{
    let mut graph = Graph::new(alloc);
    for net in nets {
        let read = nets_read(alloc, net)?;
        graph.push(&read)?;
    }
    Ok(graph)
}

/// Whether a number is a node and has a label.
fn has_label(labels: &[u32], label: u32, node: u32) -> bool
    ensures { result ≡ has_label labels.now label node }
{
    match labels.get(node as usize) {
        Some(own) => *own == label,
        None => false,
    }
}

/// Whether one of these nodes has a label.
fn any_has_label(labels: &[u32], label: u32, nodes: &[u32]) -> bool
    ensures { result ≡ list_any (has_label labels.now label) nodes.now }
{
    nodes.iter().any(|node| has_label(labels, label, *node))
}

/// Reports a net whose value depends on itself.
fn report(finder: &mut Finder, net: &Net, circular: bool)
    ensures { finder.new.first ≡ fold sooner finder.old.first (cond circular (break_of (net_of net.now) ∷ []) []) }
{
    if circular {
        finder.report(Refusal {
            rule: Rule(CIRCULAR),
            place: net.place,
        });
    }
}

/// Reports the nets that point to one of their own label.
fn report_all(finder: &mut Finder, nets: &[Net], graph: &Graph, labels: &[u32])
    requires labels { length labels.now ≡ length nets.now }
    requires graph { graph.now ≡ map read_by_net (map net_of nets.now) }
    ensures { finder.new.first ≡ fold sooner finder.old.first (breaks_from labels.now 0 (map net_of nets.now)) }
{
    for node in 0..graph.len() {
        let place = node as usize;
        let circular = any_has_label(labels, labels[place], graph.row(node));
        report(finder, &nets[place], circular);
    }
}

/// The first net whose value depends on itself, where there is one.
fn first_circle(alloc: Global, design: &Design, graph: &Graph) -> Result<Refusal, NoMemory>
    requires graph { graph.now ≡ graph_of (flat_of design.now) }
    requires circle { HasCircle graph.now }
    ensures { IfOk result (λ first. IsFirst (IsBroken (flat_of design.now) 15) first) }
{
    let labels = circles(alloc, graph)?;
    let mut finder = Finder::new();
    report_all(&mut finder, design.nets.as_slice(), graph, &labels);
    Ok(finder.first.unwrap())
}

/// The order of the nets in which each stands once, behind those that its expression names.
///
/// Refused with rule 73 at the first net whose value depends on itself through nets, exactly where there is one.
pub fn order_nets(alloc: Global, design: &Design) -> Result<NetOrder, Fail>
    requires { IsSound (flat_of design.now) }
    ensures answer { MatchResult result (λ order. IsOrder (flat_of design.now) order) (Refuses (flat_of design.now)) }
    ensures clean { IfOk result (λ _. (rule : ℕ) → (at : Place) → Breaks (flat_of design.now) 15 rule at → ⊥) }
{
    let graph = graph_of(alloc, design.nets.as_slice())?;
    match order(alloc, &graph)? {
        Some(nets) => Ok(NetOrder::of(nets)),
        None => Err(Fail::Refused(first_circle(alloc, design, &graph)?)),
    }
}
