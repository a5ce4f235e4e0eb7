//! The lines of what drives the output ports, and of what a tick does.
ghost use Rattle.std.specs.Prelude.{◌≡◌, ◌++◌, ◌+◌, map, flat_map, zip, length, codes};
ghost use Rattle.nt_core.specs.Text.{host_name, arg_name, host_port_names, numbered, node_name, assign_line, assign_lines, next_line, write_line, clock_lines};
ghost use Rattle.nt_write.specs.Lines.{ended, lines, driven, assigned};

use crate::pen::Pen;
use nt_core::{HostPins, MemWrite, Netlist, Wire};
use xt_base::Sink;

impl<'a, S: Sink> Pen<'a, S> {
    ghost use Rattle.nt_write.specs.Pen.{Takes};

    /// Takes the lines of the nodes that drive the output ports.
    pub fn assigns(&mut self, netlist: &Netlist)
        ensures { Takes S.written S.faults self.old self.new (lines (assign_lines netlist.now)) }
    {
        let drives = netlist.drives.as_slice();
        let (_, others) = drives.split_at(1);
        let (pins, hosts) = others.split_at(netlist.outputs.len());
        self.assign_edge(drives[0]);
        self.assign_pins(netlist.outputs.as_slice(), pins);
        self.assign_hosts(netlist.hosts.as_slice(), hosts);
    }

    fn assign_edge(&mut self, node: u32)
        ensures { Takes S.written S.faults self.old self.new (ended (assign_line (codes "xtc_edge") node)) }
    {
        self.put(b"  assign ");
        self.put(b"xtc_edge");
        self.driven_by(node);
    }

    fn assign_pins(&mut self, pins: &[Wire], drives: &[u32])
        requires { length drives.now ≡ length pins.now }
        ensures { Takes S.written S.faults self.old self.new (assigned (map (λ o. o.name) pins.now) drives.now) }
    {
        for (place, pin) in pins.iter().enumerate() {
            self.assign_pin(pin, drives[place]);
        }
    }

    fn assign_pin(&mut self, pin: &Wire, node: u32)
        ensures { Takes S.written S.faults self.old self.new (ended (assign_line pin.now.name node)) }
    {
        self.put(b"  assign ");
        self.put(pin.name.as_str().as_bytes());
        self.driven_by(node);
    }

    fn assign_hosts(&mut self, hosts: &[HostPins], drives: &[u32])
        requires { length drives.now ≡ length (flat_map host_port_names hosts.now) }
        ensures { Takes S.written S.faults self.old self.new (assigned (flat_map host_port_names hosts.now) drives.now) }
    {
        let mut rest = drives;
        for host in hosts {
            let (own, others) = rest.split_at(2 + host.args.len());
            self.assign_host(host, own);
            rest = others;
        }
    }

    /// Takes the lines of what drives a process's request, its function and its arguments.
    fn assign_host(&mut self, host: &HostPins, drives: &[u32])
        requires { length drives.now ≡ 2 + length host.now.args }
        ensures { Takes S.written S.faults self.old self.new (assigned (host_port_names host.now) drives.now) }
    {
        let (_, args) = drives.split_at(2);
        self.assign_request(host.process, drives[0]);
        self.assign_function(host.process, drives[1]);
        self.assign_args(host.process, args);
    }

    fn assign_request(&mut self, process: u32, node: u32)
        ensures { Takes S.written S.faults self.old self.new (ended (assign_line (host_name process ++ codes "_req") node)) }
    {
        self.put(b"  assign ");
        self.request(process);
        self.driven_by(node);
    }

    fn assign_function(&mut self, process: u32, node: u32)
        ensures { Takes S.written S.faults self.old self.new (ended (assign_line (host_name process ++ codes "_fn") node)) }
    {
        self.put(b"  assign ");
        self.function_number(process);
        self.driven_by(node);
    }

    fn assign_args(&mut self, process: u32, drives: &[u32])
        ensures { Takes S.written S.faults self.old self.new (lines (numbered (λ i n. assign_line (arg_name process i) n) drives.now)) }
    {
        for (place, node) in drives.iter().enumerate() {
            self.assign_arg(process, place, *node);
        }
    }

    fn assign_arg(&mut self, process: u32, place: usize, node: u32)
        ensures { Takes S.written S.faults self.old self.new (ended (assign_line (arg_name process place) node)) }
    {
        self.put(b"  assign ");
        self.arg(process, place);
        self.driven_by(node);
    }

    /// Takes the rest of a line that names what drives a port.
    fn driven_by(&mut self, node: u32)
        ensures { Takes S.written S.faults self.old self.new (driven node) }
    {
        self.put(b" = ");
        self.node(node as usize);
        self.put(b";\n");
    }

    /// Takes the lines of what a tick does, and those that end the module.
    pub fn clock(&mut self, netlist: &Netlist)
        ensures { Takes S.written S.faults self.old self.new (lines (clock_lines netlist.now)) }
    {
        self.put(b"  always @(posedge xtc_clk) begin\n");
        self.next_lines(netlist.nexts.as_slice());
        self.write_lines(netlist.writes.as_slice());
        self.put(b"  end\n");
        self.put(b"endmodule\n");
    }

    fn next_lines(&mut self, nexts: &[u32])
        ensures { Takes S.written S.faults self.old self.new (lines (numbered next_line nexts.now)) }
    {
        for (place, node) in nexts.iter().enumerate() {
            self.next_line(place, *node);
        }
    }

    fn next_line(&mut self, place: usize, node: u32)
        ensures { Takes S.written S.faults self.old self.new (ended (next_line place node)) }
    {
        self.put(b"    ");
        self.register(place);
        self.put(b" <= ");
        self.node(node as usize);
        self.put(b";\n");
    }

    fn write_lines(&mut self, writes: &[MemWrite])
        ensures { Takes S.written S.faults self.old self.new (lines (map write_line writes.now)) }
    {
        for write in writes {
            self.write_line(*write);
        }
    }

    fn write_line(&mut self, write: MemWrite)
        ensures { Takes S.written S.faults self.old self.new (ended (write_line write)) }
    {
        self.put(b"    if (");
        self.node(write.when as usize);
        self.put(b") ");
        self.memory(write.memory as usize);
        self.put(b"[");
        self.node(write.index as usize);
        self.put(b"] <= ");
        self.node(write.value as usize);
        self.put(b";\n");
    }
}
