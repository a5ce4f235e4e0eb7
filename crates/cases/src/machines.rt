//! Designs that run on the machine, and that are computed plainly.
ghost use Rattle.std.specs.Prelude.{◌≡◌, ◌<◌, map, length, IfOk};

use crate::designs::sound;
use crate::steps::{hexadecimals, pin, put, zero_row};
use case_file::{Case, Stop, as_text};
use nt_core::{Netlist, is_row};
use nt_run::{Acks, Runner, TickEnd};
use std::alloc::Global;
use xt_bits::Bits;

/// The place of a host, of which there is one there.
fn host_place(netlist: &Netlist, text: &str) -> Result<u32, Stop>
    ensures { IfOk result (λ host. host < length netlist.now.hosts) }
{
    let host = text.parse::<u32>().unwrap_or(u32::MAX);
    if (host as usize) < netlist.hosts.len() {
        Ok(host)
    } else {
        Err(Stop::Malformed)
    }
}

/// A design that runs, what stands on its input pins, and what its hosts acknowledge in the next tick.
#[derive(Drop)]
struct Bench<'a> {
    netlist: &'a Netlist,
    runner: Runner<'a>,
    acks: Acks,
    ghost design: { runner.design ≡ netlist.now },
    ghost hosts: { acks.processes ≡ map (λ h. h.process) netlist.now.hosts },
}

impl<'a> Bench<'a> {
    fn new(alloc: Global, netlist: &'a Netlist) -> Result<Bench<'a>, Stop> {
        Ok(Bench {
            netlist,
            runner: Runner::new(alloc, netlist)?,
            acks: Acks::new(alloc, netlist)?,
        })
    }

    /// Puts a row on the input pins.
    fn set_row(&mut self, row: &[Bits]) -> Result<(), Stop> {
        if !is_row(self.netlist, row) {
            return Err(Stop::Malformed);
        }
        self.runner.set_inputs(row);
        Ok(())
    }

    /// The host at a place acknowledges its request in the next tick, with these items.
    fn acknowledge(&mut self, alloc: Global, text: &str) -> Result<(), Stop> {
        let (host, items) = text.split_once(' ').unwrap_or((text, ""));
        let host = host_place(self.netlist, host)?;
        let items = hexadecimals(alloc, items)?;
        self.acks.set(host, items.as_slice());
        Ok(())
    }

    /// The value on an output pin, in a design that settles.
    fn output(&mut self, name: &str) -> Result<Bits, Stop> {
        let netlist = self.netlist;
        let i = pin(netlist.outputs.as_slice(), name)?;
        self.runner.settle();
        Ok(self.runner.output(i))
    }

    /// Makes a tick, after which nothing is acknowledged any more.
    fn tick(&mut self) -> &'static str {
        let end = self.runner.tick(&self.acks);
        self.acks.clear();
        match end {
            TickEnd::Ticked => "ticked",
            TickEnd::Waiting => "waiting",
            TickEnd::EdgeDone => "edge done",
            TickEnd::Stalled => "stalled",
        }
    }

    /// Adds what a host asks for, by its place: the number of a function or `none`, and the arguments.
    fn add_request(&mut self, out: &mut String, text: &str) -> Result<(), Stop> {
        let (host, _) = text.split_once(' ').unwrap_or((text, ""));
        let netlist = self.netlist;
        let host = host_place(netlist, host)?;
        let pins = &netlist.hosts[host as usize];
        self.runner.settle();
        match self.runner.request(host) {
            Some(function) => write!(out, "asks {host} {function:x}")?,
            None => write!(out, "asks {host} none")?,
        }
        for i in 0..u32::try_from(pins.args.len()).unwrap_or(0) {
            write!(out, " {:x}", self.runner.arg(host, i).value())?;
        }
        Ok(())
    }

    /// Adds the values of output pins, of which each is named in a pair such as `y=f0`.
    fn add_outputs(&mut self, out: &mut String, pairs: &str) -> Result<(), Stop> {
        out.push_str("see")?;
        for pair in pairs.split_whitespace() {
            let (name, _) = pair.split_once('=').ok_or(Stop::Malformed)?;
            write!(out, " {name}={:x}", self.output(name)?.value())?;
        }
        Ok(())
    }

    /// Does what a line says, and adds the line with what came.
    fn step(
        &mut self,
        alloc: Global,
        row: &mut Vec<Bits>,
        line: &str,
        out: &mut String,
    ) -> Result<(), Stop> {
        let (word, rest) = line.split_once(' ').unwrap_or((line, ""));
        match word {
            "set" => {
                put(self.netlist, row, rest)?;
                self.set_row(row.as_slice())?;
                Ok(out.push_str(line)?)
            }
            "ack" => {
                self.acknowledge(alloc, rest)?;
                Ok(out.push_str(line)?)
            }
            "tick" => Ok(write!(out, "tick {}", self.tick())?),
            "see" => self.add_outputs(out, rest),
            "asks" => self.add_request(out, rest),
            _ => Err(Stop::Malformed),
        }
    }
}

/// Runs a design on the machine, and gives the wanted lines with what came in them.
pub fn run(alloc: Global, case: &Case) -> Result<String, Stop> {
    let netlist = sound(alloc, case)?;
    transcript(alloc, &netlist, as_text(case.text("want")?)?)
}

/// The lines with what came in them.
pub fn transcript(alloc: Global, netlist: &Netlist, steps: &str) -> Result<String, Stop> {
    let mut bench = Bench::new(alloc, netlist)?;
    let mut row = zero_row(alloc, netlist)?;
    let mut out = String::new(alloc);
    for line in steps.lines() {
        if !out.is_empty() {
            out.push('\n')?;
        }
        bench.step(alloc, &mut row, line, &mut out)?;
    }
    Ok(out)
}
