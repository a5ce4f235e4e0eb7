//! The lines of the output ports.
ghost use Rattle.std.specs.Prelude.{◌≡◌, ◌++◌, map, flat_map, codes};
ghost use Rattle.nt_core.specs.Text.{host_name, arg_name, numbered, output_line, output_lines};
ghost use Rattle.nt_write.specs.Lines.{lines, following, followings, host_output_lines};

use crate::pen::Pen;
use nt_core::{HostPins, Netlist, Wire};
use xt_base::Sink;

impl<'a, S: Sink> Pen<'a, S> {
    ghost use Rattle.nt_write.specs.Pen.{Takes};

    /// Takes the lines of the output ports, and the line that ends the ports.
    pub fn outputs(&mut self, netlist: &Netlist)
        ensures { Takes S.written S.faults self.old self.new (lines (output_lines netlist.now)) }
    {
        self.put(b"  output wire xtc_edge");
        self.output_pins(netlist.outputs.as_slice());
        self.output_hosts(netlist.hosts.as_slice());
        self.put(b"\n");
        self.put(b");\n");
    }

    fn output_pins(&mut self, pins: &[Wire])
        ensures { Takes S.written S.faults self.old self.new (followings (map (λ o. output_line o.width o.name) pins.now)) }
    {
        for pin in pins {
            self.output_pin(pin);
        }
    }

    fn output_pin(&mut self, pin: &Wire)
        ensures { Takes S.written S.faults self.old self.new (following (output_line pin.now.width pin.now.name)) }
    {
        self.put(b",\n");
        self.put(b"  output wire ");
        self.range(pin.width);
        self.put(pin.name.as_str().as_bytes());
    }

    fn output_hosts(&mut self, hosts: &[HostPins])
        ensures { Takes S.written S.faults self.old self.new (followings (flat_map host_output_lines hosts.now)) }
    {
        for host in hosts {
            self.output_host(host);
        }
    }

    /// Takes the lines of a process's request, its function and its arguments.
    fn output_host(&mut self, host: &HostPins)
        ensures { Takes S.written S.faults self.old self.new (followings (host_output_lines host.now)) }
    {
        self.output_request(host.process);
        self.output_function(host.process);
        self.output_args(host.process, host.args.as_slice());
    }

    fn output_request(&mut self, process: u32)
        ensures { Takes S.written S.faults self.old self.new (following (output_line 1 (host_name process ++ codes "_req"))) }
    {
        self.put(b",\n");
        self.put(b"  output wire ");
        self.request(process);
    }

    fn output_function(&mut self, process: u32)
        ensures { Takes S.written S.faults self.old self.new (following (output_line 8 (host_name process ++ codes "_fn"))) }
    {
        self.put(b",\n");
        self.put(b"  output wire ");
        self.range(8);
        self.function_number(process);
    }

    fn output_args(&mut self, process: u32, widths: &[u32])
        ensures { Takes S.written S.faults self.old self.new (followings (numbered (λ i w. output_line w (arg_name process i)) widths.now)) }
    {
        for (place, width) in widths.iter().enumerate() {
            self.output_arg(process, place, *width);
        }
    }

    fn output_arg(&mut self, process: u32, place: usize, width: u32)
        ensures { Takes S.written S.faults self.old self.new (following (output_line width (arg_name process place))) }
    {
        self.put(b",\n");
        self.put(b"  output wire ");
        self.range(width);
        self.arg(process, place);
    }

    /// Takes the name of a process's request.
    pub fn request(&mut self, process: u32)
        ensures { Takes S.written S.faults self.old self.new (host_name process ++ codes "_req") }
    {
        self.host(process);
        self.put(b"_req");
    }

    /// Takes the name of the number of the function that a process asks for.
    pub fn function_number(&mut self, process: u32)
        ensures { Takes S.written S.faults self.old self.new (host_name process ++ codes "_fn") }
    {
        self.host(process);
        self.put(b"_fn");
    }

    /// Takes the name of an argument of a process's request.
    pub fn arg(&mut self, process: u32, place: usize)
        ensures { Takes S.written S.faults self.old self.new (arg_name process place) }
    {
        self.host(process);
        self.put(b"_arg");
        self.number(place);
    }
}
