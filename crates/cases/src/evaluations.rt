//! Designs that are computed plainly, node by node.
ghost use Rattle.nt_core.specs.Fitting.{IsState};

use crate::designs::sound;
use crate::steps::{hexadecimals, put, zero_row};
use case_file::{Case, Stop, as_text};
use nt_core::{Inputs, Netlist, State, evaluate, is_row, tick};
use std::alloc::Global;
use xt_base::Item;
use xt_bits::Bits;

/// A design that is computed, and what its registers and memories hold.
#[derive(Drop)]
struct Computation<'a> {
    netlist: &'a Netlist,
    state: State,
    ghost fits: { IsState netlist.now state },
}

impl<'a> Computation<'a> {
    fn new(alloc: Global, netlist: &'a Netlist) -> Result<Computation<'a>, Stop> {
        Ok(Computation {
            netlist,
            state: State::start(alloc, netlist)?,
        })
    }

    /// Adds the values of nodes, of which each is named in a pair such as `n5=f0`.
    fn add_values(
        &self,
        alloc: Global,
        inputs: &Inputs,
        pairs: &str,
        out: &mut String,
    ) -> Result<(), Stop> {
        if !is_row(self.netlist, inputs.row.as_slice()) {
            return Err(Stop::Malformed);
        }
        let values = evaluate(alloc, self.netlist, inputs, &self.state)?;
        out.push_str("see")?;
        for pair in pairs.split_whitespace() {
            let (name, _) = pair.split_once('=').ok_or(Stop::Malformed)?;
            let Some(number) = name.strip_prefix('n') else {
                return Err(Stop::Malformed);
            };
            match values.get(number.parse::<usize>().unwrap_or(usize::MAX)) {
                Some(value) => write!(out, " {name}={:x}", value.value())?,
                None => return Err(Stop::Malformed),
            }
        }
        Ok(())
    }

    /// The same design after what a line says, of which it adds what came.
    fn after(
        self,
        alloc: Global,
        pins: &mut Pins,
        line: &str,
        out: &mut String,
    ) -> Result<Computation<'a>, Stop> {
        let (word, rest) = line.split_once(' ').unwrap_or((line, ""));
        let inputs = pins.inputs(alloc)?;
        if word == "see" {
            self.add_values(alloc, &inputs, rest, out)?;
            return Ok(self);
        }
        out.push_str(line)?;
        match word {
            "set" => put(self.netlist, &mut pins.row, rest)?,
            "ack" => pins.reply = hexadecimals(alloc, rest)?,
            "tick" => {
                pins.reply = Vec::new(alloc);
                return self.ticked(alloc, &inputs);
            }
            _ => return Err(Stop::Malformed),
        }
        Ok(self)
    }

    /// The same design after a tick.
    fn ticked(self, alloc: Global, inputs: &Inputs) -> Result<Computation<'a>, Stop> {
        let Computation { netlist, state } = self;
        if !is_row(netlist, inputs.row.as_slice()) {
            return Err(Stop::Malformed);
        }
        Ok(Computation {
            netlist,
            state: tick(alloc, netlist, inputs, state)?,
        })
    }
}

/// What stands on the input pins, and the reply of one process in the next tick: its number and the items.
#[derive(Drop)]
struct Pins {
    row: Vec<Bits>,
    reply: Vec<Item>,
}

impl Pins {
    fn new(alloc: Global, netlist: &Netlist) -> Result<Pins, Stop> {
        Ok(Pins {
            row: zero_row(alloc, netlist)?,
            reply: Vec::new(alloc),
        })
    }

    /// The inputs of a tick.
    fn inputs(&self, alloc: Global) -> Result<Inputs, Stop> {
        let mut inputs = Inputs::silent(alloc, Vec::from_slice(alloc, self.row.as_slice())?);
        let Some((process, items)) = self.reply.as_slice().split_first() else {
            return Ok(inputs);
        };
        for i in 0..=*process.min(&64) {
            inputs.acks.push(i == *process)?;
            inputs.items.push(Vec::from_slice(alloc, items)?)?;
        }
        Ok(inputs)
    }
}

/// Computes a design, and gives the wanted lines with what came in them.
pub fn computed(alloc: Global, case: &Case) -> Result<String, Stop> {
    let netlist = sound(alloc, case)?;
    let steps = as_text(case.text("want")?)?;
    let mut computation = Computation::new(alloc, &netlist)?;
    let mut pins = Pins::new(alloc, &netlist)?;
    let mut out = String::new(alloc);
    for line in steps.lines() {
        if !out.is_empty() {
            out.push('\n')?;
        }
        computation = computation.after(alloc, &mut pins, line, &mut out)?;
    }
    Ok(out)
}
