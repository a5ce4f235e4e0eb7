//! The lines of registers, memories and nodes.
ghost use Rattle.std.specs.Prelude.{◌≡◌};
ghost use Rattle.nt_core.specs.Text.{numbered, register_line, memory_line, node_line, declaration_lines};
ghost use Rattle.nt_write.specs.Lines.{ended, lines};

use crate::pen::Pen;
use nt_core::{Memory, Netlist, Node};
use xt_base::Sink;
use xt_bits::Bits;

impl<'a, S: Sink> Pen<'a, S> {
    ghost use Rattle.nt_write.specs.Pen.{Takes};

    /// Takes the lines of all that the module declares.
    pub fn declarations(&mut self, netlist: &Netlist)
        ensures { Takes S.written S.faults self.old self.new (lines (declaration_lines netlist.now)) }
    {
        self.register_lines(netlist.registers.as_slice());
        self.memory_lines(netlist.memories.as_slice());
        self.node_lines(netlist, netlist.nodes.as_slice());
    }

    fn register_lines(&mut self, registers: &[Bits])
        ensures { Takes S.written S.faults self.old self.new (lines (numbered register_line registers.now)) }
    {
        for (place, start) in registers.iter().enumerate() {
            self.register_line(place, *start);
        }
    }

    fn register_line(&mut self, place: usize, start: Bits)
        ensures { Takes S.written S.faults self.old self.new (ended (register_line place start)) }
    {
        self.put(b"  reg ");
        self.range(start.width());
        self.register(place);
        self.put(b" = ");
        self.constant(start);
        self.put(b";\n");
    }

    fn memory_lines(&mut self, memories: &[Memory])
        ensures { Takes S.written S.faults self.old self.new (lines (numbered memory_line memories.now)) }
    {
        for (place, memory) in memories.iter().enumerate() {
            self.memory_line(place, *memory);
        }
    }

    fn memory_line(&mut self, place: usize, memory: Memory)
        ensures { Takes S.written S.faults self.old self.new (ended (memory_line place memory)) }
    {
        self.put(b"  reg ");
        self.range(memory.width);
        self.memory(place);
        self.put(b" [0:");
        self.number(memory.words.saturating_sub(1) as usize);
        self.put(b"];\n");
    }

    fn node_lines(&mut self, netlist: &Netlist, nodes: &[Node])
        ensures { Takes S.written S.faults self.old self.new (lines (numbered (node_line netlist.now) nodes.now)) }
    {
        for (place, node) in nodes.iter().enumerate() {
            self.node_line(netlist, place, *node);
        }
    }

    fn node_line(&mut self, netlist: &Netlist, place: usize, node: Node)
        ensures { Takes S.written S.faults self.old self.new (ended (node_line netlist.now place node)) }
    {
        self.put(b"  wire ");
        self.range(node.width);
        self.node(place);
        self.put(b" = ");
        self.form(netlist, node.op);
        self.put(b";\n");
    }
}
