//! Building a netlist node by node.
ghost use Rattle.std.specs.Prelude.{◌≡◌, ◌≢◌, ◌+◌, ◌<◌, ◌≤◌, [], ◌∷◌, ◌++◌, length, true, slice_get, Contains, vec_len, vec_capacity, if◌then◌else◌, AllPairs, IfOk, OnErr};
ghost use Rattle.nt_core.specs.Forms.{widths, HasOperands};
ghost use Rattle.nt_core.specs.Growth.{IsIncluded};
ghost use Rattle.nt_core.specs.Parts.{assembled};
ghost use Rattle.nt_core.specs.Conditions.{IsShell};

use crate::netlist::{Netlist, Node, Op, Shell};
use crate::operands::{form_width, is_constant_in_range};
use indexmap::IndexSet;
use std::alloc::Global;
use std::marker::Model;
use xt_base::NoMemory;

/// Nodes that are added one after another, each after its operands. No two of them are equal.
///
/// Contracts see it as the list of its nodes.
#[derive(Debug, Drop)]
pub struct Builder {
    nodes: Vec<Node>,
    /// The same nodes in the same order, to find the number of an equal one.
    known: IndexSet<Node>,
}

impl Model for Builder {
    ghost use Rattle.std.specs.Prelude.{List, AllPairs, ◌≡◌, ◌≢◌};
    ghost use Rattle.nt_core.specs.declared.netlist.Node.{Node};
    ghost use Rattle.nt_core.specs.Conditions.{AreNodes};

    ghost Value = { List Node };

    ghost view = { λ b. b.nodes.items };

    ghost invariant = { λ b. AreNodes b.nodes.items × AllPairs (λ m n. m ≢ n) b.nodes.items × (b.known.keys ≡ b.nodes.items) };
}

impl Builder {
    /// No nodes.
    pub fn new(alloc: Global) -> Builder
        ensures { result ≡ [] }
    {
        Builder {
            nodes: Vec::new(alloc),
            known: IndexSet::new(alloc),
        }
    }

    /// The number of a node of this form: of the equal node where there is one, else of a new one at the end.
    ///
    /// Without memory the nodes stay as they were.
    pub fn node(&mut self, op: Op) -> Result<u32, NoMemory>
        requires { HasOperands (widths self.old) op }
        ensures ok { IfOk result (λ i. IsIncluded self.old op self.new i) }
        ensures room { IfOk result (λ i. length self.new ≤ 4294967295) }
        ensures err { OnErr result (self.new ≡ self.old) }
    {
        prove!(is_constant_in_range(&op));
        let width = form_width(self.nodes.as_slice(), &op);
        check_room(self.nodes.len())?;
        self.nodes.reserve(1)?;
        let (number, is_new) = include(&mut self.known, width, op)?;
        if is_new {
            add(&mut self.nodes, width, op);
        }
        Ok(number as u32)
    }

    /// The nodes so far.
    pub fn nodes(&self) -> &[Node]
        ensures nodes { result.now ≡ self.now }
        ensures distinct { AllPairs (λ m n. m ≢ n) self.now }
    {
        self.nodes.as_slice()
    }

    /// The netlist of these nodes in the shell.
    pub fn finish(self, shell: Shell) -> Netlist
        requires { IsShell (assembled shell self) }
        ensures { result ≡ assembled shell self }
    {
        shell.with_nodes(self.nodes)
    }
}

/// Fails where a list has as many entries as a `u32` can number.
fn check_room(count: usize) -> Result<(), NoMemory>
    ensures { IfOk result (λ _. count < 4294967295) }
{
    if count < u32::MAX as usize {
        Ok(())
    } else {
        Err(NoMemory)
    }
}

/// The number of the node among those that are known, and whether it is new there.
fn include(known: &mut IndexSet<Node>, width: u32, op: Op) -> Result<(usize, bool), NoMemory>
    ensures there { IfOk result (λ r. slice_get known.new.keys r.0 ≡ Some record { width = width; op = op }) }
    ensures new { IfOk result (λ r. r.1 ≡ true → ¬ Contains known.old.keys record { width = width; op = op }) }
    ensures keys { IfOk result (λ r. known.new.keys ≡ (if r.1 then known.old.keys ++ record { width = width; op = op } ∷ [] else known.old.keys)) }
    ensures err { OnErr result (known.new.keys ≡ known.old.keys) }
{
    match known.insert_full(Node { width, op }) {
        Ok(found) => Ok(found),
        Err(_) => Err(NoMemory),
    }
}

/// Adds the node at the end.
fn add(nodes: &mut Vec<Node>, width: u32, op: Op)
    requires { vec_len nodes.old < vec_capacity nodes.old }
    ensures { nodes.new.items ≡ nodes.old.items ++ record { width = width; op = op } ∷ [] }
{
    nodes.push(Node { width, op }).unwrap();
}
