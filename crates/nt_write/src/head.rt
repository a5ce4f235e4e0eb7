//! The lines before the module, and its input ports.
ghost use Rattle.std.specs.Prelude.{◌≡◌, ◌++◌, map, flat_map, codes, decimal};
ghost use Rattle.nt_core.specs.Text.{width_texts, function_line, head_lines, input_line, ret_name, numbered, host_input_lines, input_lines};
ghost use Rattle.nt_write.specs.Lines.{ended, lines};

use crate::pen::Pen;
use nt_core::{Function, HostPins, Netlist, Wire};
use xt_base::Sink;

impl<'a, S: Sink> Pen<'a, S> {
    ghost use Rattle.nt_write.specs.Pen.{Takes};

    /// Takes the lines before the module, and the module's first.
    pub fn head(&mut self, netlist: &Netlist)
        ensures { Takes S.written S.faults self.old self.new (lines (head_lines netlist.now)) }
    {
        self.put(b"// xtc design ");
        self.number(netlist.version as usize);
        self.put(b"\n");
        self.put(b"// processes ");
        self.number(netlist.processes as usize);
        self.put(b"\n");
        self.functions(netlist.functions.as_slice());
        self.put(b"module xtc_design (\n");
    }

    fn functions(&mut self, functions: &[Function])
        ensures { Takes S.written S.faults self.old self.new (lines (map function_line functions.now)) }
    {
        for function in functions {
            self.function(function);
        }
    }

    /// Takes the line of a function of the host.
    fn function(&mut self, function: &Function)
        ensures { Takes S.written S.faults self.old self.new (ended (function_line function.now)) }
    {
        self.put(b"// function ");
        self.put(function.name.as_str().as_bytes());
        self.put(b" in");
        self.widths(function.ins.as_slice());
        self.put(b" out");
        self.widths(function.rets.as_slice());
        self.put(b"\n");
    }

    /// Takes a blank and a width for each item.
    fn widths(&mut self, widths: &[u32])
        ensures { Takes S.written S.faults self.old self.new (width_texts widths.now) }
    {
        for width in widths {
            self.width(*width);
        }
    }

    fn width(&mut self, width: u32)
        ensures { Takes S.written S.faults self.old self.new (codes " " ++ decimal width) }
    {
        self.put(b" ");
        self.number(width as usize);
    }

    /// Takes the lines of the input ports.
    pub fn inputs(&mut self, netlist: &Netlist)
        ensures { Takes S.written S.faults self.old self.new (lines (input_lines netlist.now)) }
    {
        self.put(b"  input wire xtc_clk,\n");
        self.input_pins(netlist.inputs.as_slice());
        self.input_hosts(netlist.hosts.as_slice());
    }

    fn input_pins(&mut self, pins: &[Wire])
        ensures { Takes S.written S.faults self.old self.new (lines (map (λ i. input_line i.width i.name) pins.now)) }
    {
        for pin in pins {
            self.input_pin(pin);
        }
    }

    fn input_pin(&mut self, pin: &Wire)
        ensures { Takes S.written S.faults self.old self.new (ended (input_line pin.now.width pin.now.name)) }
    {
        self.put(b"  input wire ");
        self.range(pin.width);
        self.put(pin.name.as_str().as_bytes());
        self.put(b",\n");
    }

    fn input_hosts(&mut self, hosts: &[HostPins])
        ensures { Takes S.written S.faults self.old self.new (lines (flat_map host_input_lines hosts.now)) }
    {
        for host in hosts {
            self.input_host(host);
        }
    }

    /// Takes the lines of a process's acknowledgement and reply.
    fn input_host(&mut self, host: &HostPins)
        ensures { Takes S.written S.faults self.old self.new (lines (host_input_lines host.now)) }
    {
        self.put(b"  input wire ");
        self.ack(host.process);
        self.put(b",\n");
        self.input_rets(host.process, host.rets.as_slice());
    }

    fn input_rets(&mut self, process: u32, widths: &[u32])
        ensures { Takes S.written S.faults self.old self.new (lines (numbered (λ i w. input_line w (ret_name process i)) widths.now)) }
    {
        for (item, width) in widths.iter().enumerate() {
            self.input_ret(process, item, *width);
        }
    }

    fn input_ret(&mut self, process: u32, item: usize, width: u32)
        ensures { Takes S.written S.faults self.old self.new (ended (input_line width (ret_name process item))) }
    {
        self.put(b"  input wire ");
        self.range(width);
        self.ret(process, item);
        self.put(b",\n");
    }
}
