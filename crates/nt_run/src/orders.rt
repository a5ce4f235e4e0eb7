//! The order in which the nodes are evaluated.
//!
//! Nodes of one form stand together as far as those that they read let them: a processor then foresees what comes
//! next. Which order is a fast one is not proved, but that each node comes after those that it reads.
ghost use Rattle.std.specs.Prelude.{◌≡◌, ◌≤◌, length, get_or, slice_get, None, Some, true, false, IfOk, IfSome, IsTrue, ◌↔◌};
ghost use Rattle.nt_core.specs.declared.netlist.Node.{Node};
ghost use Rattle.nt_core.specs.Conditions.{AreNodes};
ghost use Rattle.nt_core.specs.Forms.{operands};
ghost use Rattle.nt_run.specs.Order.{AreMarked, IsStep, IsBegun, IsTried, IsOrder};

use arrayvec::ArrayVec;
use nt_core::{Node, Op};
use std::alloc::Global;
use xt_base::NoMemory;

/// The nodes that a form reads.
type Operands = ArrayVec<u32, 3>;

/// How many forms there are.
const FORMS: usize = 28;

/// The evaluation of one node.
#[derive(Clone, Copy, Debug, PartialEq, Eq)]
pub(crate) struct Step {
    pub place: usize,
    pub op: Op,
}

/// When a node is to be evaluated. The forms take turns, again and again.
#[derive(Clone, Copy, Debug, PartialEq, Eq, PartialOrd, Ord)]
struct Rank {
    turn: usize,
    place: usize,
}

/// An order that is begun, and for each node whether it has a step in it.
#[derive(Debug, Drop)]
struct Order {
    steps: Vec<Step>,
    marks: Vec<bool>,
}

/// Steps for all nodes, each after those of the nodes that it reads.
pub(crate) fn order_of(alloc: Global, nodes: &[Node]) -> Result<Vec<Step>, NoMemory>
    requires { AreNodes nodes.now }
    ensures { IfOk result (λ v. IsOrder nodes.now v.items) }
{
    let mut order = Order::new(alloc, nodes)?;
    order.add_ranked(alloc, nodes)?;
    order.add_all(nodes)?;
    Ok(order.steps)
}

impl Order {
    /// No steps.
    fn new(alloc: Global, nodes: &[Node]) -> Result<Order, NoMemory>
        ensures { IfOk result (λ o. IsBegun nodes.now o.steps.items o.marks.items) }
    {
        Ok(Order {
            steps: Vec::new(alloc),
            marks: vec![in alloc; false; nodes.len()]?,
        })
    }

    /// Adds steps by the ranks of the nodes.
    fn add_ranked(&mut self, alloc: Global, nodes: &[Node]) -> Result<(), NoMemory>
        requires { IsBegun nodes.now self.old.steps.items self.old.marks.items }
        ensures { IfOk result (λ _done. IsBegun nodes.now self.new.steps.items self.new.marks.items) }
    {
        let ranks = ranks(alloc, nodes)?;
        for rank in ranks.as_slice() {
            self.add(nodes, rank.place)?;
        }
        Ok(())
    }

    /// Adds steps for the nodes that have none, one after another.
    fn add_all(&mut self, nodes: &[Node]) -> Result<(), NoMemory>
        requires nodes { AreNodes nodes.now }
        requires begun { IsBegun nodes.now self.old.steps.items self.old.marks.items }
        ensures { IfOk result (λ _done. IsOrder nodes.now self.new.steps.items) }
    {
        for place in 0..nodes.len() {
            self.add(nodes, place)?;
        }
        Ok(())
    }

    /// Adds a step for the node at a place, unless it has one, or one that it reads has none yet.
    fn add(&mut self, nodes: &[Node], place: usize) -> Result<(), NoMemory>
        requires { IsBegun nodes.now self.old.steps.items self.old.marks.items }
        ensures { IfOk result (λ _done. IsTried nodes.now self.old.marks.items place self.new.steps.items self.new.marks.items) }
    {
        if let Some(step) = next_step(nodes, place, &self.marks) {
            self.steps.push(step)?;
            self.marks[place] = true;
        }
        Ok(())
    }
}

/// A step for the node at a place, unless it has one, or one that it reads has none yet.
fn next_step(nodes: &[Node], place: usize, marks: &[bool]) -> Option<Step>
    ensures place { IfSome result (λ s. s.place ≡ place) }
    ensures step { IfSome result (λ s. IsStep nodes.now marks.now s) }
    ensures none { result ≡ None → (m : Node) → slice_get nodes.now place ≡ Some m → AreMarked marks.now (operands m.op) → get_or marks.now place false ≡ true }
{
    let node = nodes.get(place)?;
    let reads = operands(&node.op);
    if is_marked(marks, place) || !are_marked(marks, reads.as_slice()) {
        return None;
    }
    Some(Step { place, op: node.op })
}

/// Whether all of these are marked.
fn are_marked(marks: &[bool], places: &[u32]) -> bool
    ensures { IsTrue result ↔ AreMarked marks.now places.now }
{
    places.iter().all(|place| is_marked(marks, *place as usize))
}

fn is_marked(marks: &[bool], place: usize) -> bool
    ensures { result ≡ get_or marks.now place false }
{
    marks.get(place).copied().unwrap_or(false)
}

/// The nodes that a form reads.
fn operands(op: &Op) -> Operands
    ensures { result.items ≡ operands op.now }
{
    match *op {
        Op::Pin { .. } | Op::Ack { .. } | Op::Ret { .. } | Op::Reg { .. } | Op::Const(_) => listed(
            &[],
        ),
        Op::Word { index: a, .. }
        | Op::Not(a)
        | Op::Div(a, _)
        | Op::Rem(a, _)
        | Op::SDiv(a, _)
        | Op::SRem(a, _)
        | Op::Parity(a)
        | Op::Slice { node: a, .. }
        | Op::Copies { node: a, .. } => listed(&[a]),
        Op::And(a, b)
        | Op::Or(a, b)
        | Op::Xor(a, b)
        | Op::Add(a, b)
        | Op::Sub(a, b)
        | Op::Mul(a, b)
        | Op::Shl(a, b)
        | Op::Shr(a, b)
        | Op::Sar(a, b)
        | Op::Eq(a, b)
        | Op::Lt(a, b)
        | Op::SLt(a, b)
        | Op::Concat(a, b) => listed(&[a, b]),
        Op::Choice(a, b, c) => listed(&[a, b, c]),
    }
}

fn listed(places: &[u32]) -> Operands
    requires { length places.now ≤ 3 }
    ensures { result.items ≡ places.now }
{
    let mut operands = ArrayVec::new();
    for place in places {
        operands.push(*place);
    }
    operands
}

/// The ranks of all nodes, the first one first.
fn ranks(alloc: Global, nodes: &[Node]) -> Result<Vec<Rank>, NoMemory> {
    let turns = turns(alloc, nodes)?;
    let mut ranks = Vec::new(alloc);
    for (place, turn) in turns.as_slice().iter().enumerate() {
        ranks.push(Rank { turn: *turn, place })?;
    }
    ranks.sort()?;
    Ok(ranks)
}

/// The turn of each node: the first of its form that isn't before one of those that it reads.
fn turns(alloc: Global, nodes: &[Node]) -> Result<Vec<usize>, NoMemory> {
    let mut turns = Vec::new(alloc);
    for node in nodes {
        let read = latest(turns.as_slice(), operands(&node.op).as_slice());
        turns.push(turn_from(read, form_number(&node.op)))?;
    }
    Ok(turns)
}

/// The latest turn of these nodes.
fn latest(turns: &[usize], places: &[u32]) -> usize {
    let mut latest = 0;
    for place in places {
        latest = latest.max(turns.get(*place as usize).copied().unwrap_or(0));
    }
    latest
}

/// The first turn of a form that isn't before a turn.
fn turn_from(least: usize, form: usize) -> usize {
    let turn = (least - least % FORMS).saturating_add(form);
    if turn < least {
        turn.saturating_add(FORMS)
    } else {
        turn
    }
}

/// A number for each form.
fn form_number(op: &Op) -> usize {
    match *op {
        Op::Pin { .. } => 0,
        Op::Ack { .. } => 1,
        Op::Ret { .. } => 2,
        Op::Reg { .. } => 3,
        Op::Const(_) => 4,
        Op::Word { .. } => 5,
        Op::Not(_) => 6,
        Op::And(..) => 7,
        Op::Or(..) => 8,
        Op::Xor(..) => 9,
        Op::Add(..) => 10,
        Op::Sub(..) => 11,
        Op::Mul(..) => 12,
        Op::Div(..) => 13,
        Op::Rem(..) => 14,
        Op::SDiv(..) => 15,
        Op::SRem(..) => 16,
        Op::Shl(..) => 17,
        Op::Shr(..) => 18,
        Op::Sar(..) => 19,
        Op::Eq(..) => 20,
        Op::Lt(..) => 21,
        Op::SLt(..) => 22,
        Op::Parity(_) => 23,
        Op::Choice(..) => 24,
        Op::Concat(..) => 25,
        Op::Slice { .. } => 26,
        Op::Copies { .. } => 27,
    }
}
