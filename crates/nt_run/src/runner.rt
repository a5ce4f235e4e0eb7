//! A written design that runs.
ghost use Rattle.std.specs.Prelude.{◌≡◌, ◌<◌, true, false, All, IfOk, IsTrue, length, map, slice_get};
ghost use Rattle.xt_bits.specs.Word.{word};
ghost use Rattle.nt_core.specs.Conditions.{AreNodes};
ghost use Rattle.nt_core.specs.Fitting.{value_widths, HasPinWidths};
ghost use Rattle.nt_core.specs.Forms.{IsWidth, widths};
ghost use Rattle.nt_core.specs.Ports.{edge_up, argument, argument_count, outputs};
ghost use Rattle.nt_run.specs.Machine.{machine_start, settled_values};
ghost use Rattle.nt_run.specs.Ticks.{requested, has_unanswered, is_stalled, values_in_tick, ticked, tick_end, after_tick, made_end};

use crate::acks::Acks;
use crate::ends::TickEnd;
use crate::evaluation::{evaluate, reevaluate};
use crate::orders::{Step, order_of};
use crate::ports::{
    argument, function_number, has_request, has_unanswered, is_asking, is_edge, port, request_ports,
};
use crate::state::advance;
use nt_core::{Inputs, Netlist, Node, State, Wire};
use std::alloc::Global;
use std::marker::Model;
use xt_base::NoMemory;
use xt_bits::Bits;

/// A written design that runs, tick by tick of the free clock.
///
/// Contracts see the design, what stands on its input pins, what its registers and memories hold,
/// whether a tick of the edge was made, and whether it has settled since the pins or the state changed.
/// No call but `new` takes memory.
#[derive(Debug, Drop)]
pub struct Runner<'a> {
    netlist: &'a Netlist,
    inputs: Inputs,
    state: State,
    /// Acknowledges nothing, as in a settling.
    quiet: Acks,
    /// The values of the nodes, as they were last evaluated.
    values: Vec<Bits>,
    /// The nodes in the order in which they are evaluated.
    steps: Vec<Step>,
    /// The place of each host's first output port.
    ports: Vec<usize>,
    is_begun: bool,
    is_settled: bool,
}

impl<'a> Model for Runner<'a> {
    ghost use Rattle.nt_run.specs.Machine.{Machine};
    ghost use Rattle.nt_run.specs.Kept.{IsKept};

    ghost Value = { Machine };

    ghost view = { λ r. record { design = r.netlist.now; row = r.inputs.row; state = r.state; is_begun = r.is_begun; is_settled = r.is_settled } };

    ghost invariant = { λ r. IsKept r.netlist.now r.inputs r.state r.quiet r.values.items r.steps.items r.ports.items r.is_settled };
}

impl<'a> Runner<'a> {
    /// The design at its start, with 0 on the input pins.
    pub fn new(alloc: Global, netlist: &'a Netlist) -> Result<Runner<'a>, NoMemory>
        ensures { IfOk result (λ r. r ≡ machine_start netlist.now) }
    {
        let row = zero_row(alloc, netlist.inputs.as_slice())?;
        Ok(Runner {
            netlist,
            inputs: Inputs::silent(alloc, row),
            state: State::start(alloc, netlist)?,
            quiet: Acks::none(alloc),
            values: zeros(alloc, netlist.nodes.as_slice())?,
            steps: order_of(alloc, netlist.nodes.as_slice())?,
            ports: request_ports(alloc, netlist)?,
            is_begun: false,
            is_settled: false,
        })
    }

    /// Puts a row on the input pins.
    pub fn set_inputs(&mut self, row: &[Bits])
        requires { HasPinWidths self.old.design row.now }
        ensures { self.new ≡ record self.old { row = row.now; is_settled = false } }
    {
        put_row(&mut self.inputs, row);
        self.is_settled = false;
    }

    /// Evaluates the nodes with no acknowledgement.
    pub fn settle(&mut self)
        ensures { self.new ≡ record self.old { is_settled = true } }
    {
        if !self.is_settled {
            evaluate(
                self.netlist,
                &self.steps,
                &self.inputs,
                &self.quiet,
                &self.state,
                &mut self.values,
            );
            self.is_settled = true;
        }
    }

    /// The number of the function that the host at a place asks for, if its request is up.
    pub fn request(&self, host: u32) -> Option<u8>
        requires host { host < length self.now.design.hosts }
        requires settled { IsTrue self.now.is_settled }
        ensures { result ≡ requested self.now.design (settled_values self.now) host }
    {
        let host = host as usize;
        if is_asking(self.netlist, &self.values, &self.ports, host) {
            Some(function_number(self.netlist, &self.values, &self.ports, host))
        } else {
            None
        }
    }

    /// The value on an argument pin of the host at a place.
    pub fn arg(&self, host: u32, i: u32) -> Bits
        requires host { host < length self.now.design.hosts }
        requires argument { i < argument_count (slice_get self.now.design.hosts host) }
        requires settled { IsTrue self.now.is_settled }
        ensures { result ≡ argument self.now.design (settled_values self.now) host i }
    {
        argument(
            self.netlist,
            &self.values,
            &self.ports,
            host as usize,
            i as usize,
        )
    }

    /// The value on an output pin.
    pub fn output(&self, i: u32) -> Bits
        requires pin { i < length self.now.design.outputs }
        requires settled { IsTrue self.now.is_settled }
        ensures { slice_get (outputs self.now.design (settled_values self.now)) i ≡ Some result }
    {
        port(self.netlist, &self.values, 1 + i as usize)
    }

    /// Settles, and makes a tick with these acknowledgements where one can be made.
    pub fn tick(&mut self, acks: &Acks) -> TickEnd
        ensures end { result ≡ tick_end self.old acks.now }
        ensures machine { self.new ≡ after_tick self.old acks.now }
        ensures design { self.new.design ≡ self.old.design }
        ensures row { self.new.row ≡ self.old.row }
    {
        self.settle();
        if self.is_stalled() {
            return TickEnd::Stalled;
        }
        let is_unanswered = self.has_unanswered(acks);
        let is_done = self.step(acks);
        end_of(is_done, is_unanswered)
    }

    /// Whether no tick can be made.
    fn is_stalled(&self) -> bool
        requires { IsTrue self.now.is_settled }
        ensures { result ≡ is_stalled self.now }
    {
        self.is_begun && !has_request(self.netlist, &self.values, &self.ports)
    }

    /// Whether some request is up and isn't acknowledged.
    fn has_unanswered(&self, acks: &Acks) -> bool
        requires { IsTrue self.now.is_settled }
        ensures { result ≡ has_unanswered self.now.design (settled_values self.now) acks.now }
    {
        has_unanswered(self.netlist, &self.values, &self.ports, acks)
    }

    /// Makes a tick, and says whether it ends the edge.
    fn step(&mut self, acks: &Acks) -> bool
        requires { IsTrue self.old.is_settled }
        ensures done { result ≡ edge_up self.old.design (values_in_tick self.old acks.now) }
        ensures machine { self.new ≡ ticked self.old acks.now }
    {
        reevaluate(
            self.netlist,
            &self.steps,
            &self.inputs,
            acks,
            &self.state,
            &mut self.values,
        );
        let is_done = is_edge(self.netlist, &self.values);
        advance(self.netlist, &self.values, &mut self.state);
        self.is_begun = !is_done;
        self.is_settled = false;
        is_done
    }
}

/// How a tick that was made ends.
fn end_of(is_done: bool, is_unanswered: bool) -> TickEnd
    ensures { result ≡ made_end is_done is_unanswered }
{
    if is_done {
        TickEnd::EdgeDone
    } else if is_unanswered {
        TickEnd::Waiting
    } else {
        TickEnd::Ticked
    }
}

/// A row of 0.
fn zero_row(alloc: Global, pins: &[Wire]) -> Result<Vec<Bits>, NoMemory>
    requires { All (λ p. IsWidth p.width) pins.now }
    ensures { IfOk result (λ v. v.items ≡ map (λ p. word p.width 0) pins.now) }
{
    let mut row = Vec::new(alloc);
    for pin in pins {
        row.push(Bits::new(pin.width, 0))?;
    }
    Ok(row)
}

/// A value of each node's width, to be written over.
fn zeros(alloc: Global, nodes: &[Node]) -> Result<Vec<Bits>, NoMemory>
    requires { AreNodes nodes.now }
    ensures { IfOk result (λ v. value_widths v.items ≡ widths nodes.now) }
{
    let mut zeros = Vec::new(alloc);
    for node in nodes {
        zeros.push(Bits::new(node.width, 0))?;
    }
    Ok(zeros)
}

/// Puts a row of the same length in the place of the old one.
fn put_row(inputs: &mut Inputs, row: &[Bits])
    requires { length row.now ≡ length inputs.old.row }
    ensures { inputs.new ≡ record inputs.old { row = row.now } }
{
    inputs.row.copy_from_slice(row);
}
