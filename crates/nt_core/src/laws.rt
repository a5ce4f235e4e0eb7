//! Laws of the definitions. Nothing is done: each contract is a law.
//!
//! Where a law reads a part of the netlist, this brings in what every netlist keeps.
ghost use Rattle.std.specs.Prelude.{◌≡◌, ℕ, Some, slice_get, take};
ghost use Rattle.xt_bits.specs.Stimulus.{Stimulus};
ghost use Rattle.xt_bits.specs.Trace.{Trace};
ghost use Rattle.nt_core.specs.declared.netlist.Node.{Node};
ghost use Rattle.nt_core.specs.Sources.{Sources};
ghost use Rattle.nt_core.specs.NodeValue.{value_of, values, node_value};
ghost use Rattle.nt_core.specs.Fitting.{SourcesFit};
ghost use Rattle.nt_core.specs.DesignRun.{IsDesignTrace};

use crate::netlist::Netlist;

/// A node's value is its form's over the values of the nodes before it, and over those of all, of which it reads no
/// others. It has the node's width.
pub fn has_values_of_forms(netlist: &Netlist)
    ensures before { (s : Sources) (i : ℕ) (m : Node) → slice_get netlist.now.nodes i ≡ Some m → node_value netlist.now.nodes s i ≡ value_of s (take i (values netlist.now.nodes s)) m.op }
    ensures all { (s : Sources) (i : ℕ) (m : Node) → slice_get netlist.now.nodes i ≡ Some m → node_value netlist.now.nodes s i ≡ value_of s (values netlist.now.nodes s) m.op }
    ensures width { (s : Sources) → SourcesFit netlist.now s → (i : ℕ) (m : Node) → slice_get netlist.now.nodes i ≡ Some m → (node_value netlist.now.nodes s i).width ≡ m.width }
{
    let _kept = &netlist.version;
}

/// A design has just one trace for each stimulus: every sequence of ticks that its driver makes in an edge ends.
pub fn has_one_trace(netlist: &Netlist)
    ensures some { (x : Stimulus) → (t : Trace) × IsDesignTrace netlist.now x t }
    ensures one { (x : Stimulus) (t u : Trace) → IsDesignTrace netlist.now x t → IsDesignTrace netlist.now x u → t ≡ u }
{
    let _ = netlist;
}
