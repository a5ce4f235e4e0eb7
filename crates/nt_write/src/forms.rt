//! The forms of nodes.
ghost use Rattle.std.specs.Prelude.{◌≡◌, ◌++◌, [], map, get_or, decimal, codes};
ghost use Rattle.nt_core.specs.Text.{ack_name, ret_name, node_name, memory_name, constant_text, signed_constant_text, infix_text, signed_text, form_text};

use crate::pen::Pen;
use nt_core::{Netlist, Op};
use xt_base::Sink;
use xt_bits::Bits;

impl<'a, S: Sink> Pen<'a, S> {
    ghost use Rattle.nt_write.specs.Pen.{Takes};

    /// Takes the form of a node of the netlist.
    pub fn form(&mut self, netlist: &Netlist, op: Op)
        ensures { Takes S.written S.faults self.old self.new (form_text netlist.now op) }
    {
        match op {
            Op::Pin { pin, .. } => self.pin(netlist, pin as usize),
            Op::Ack { process } => self.ack(process),
            Op::Ret { process, item, .. } => self.ret(process, item as usize),
            Op::Reg { reg, .. } => self.register(reg as usize),
            Op::Const(constant) => self.constant(constant),
            Op::Word { memory, index, .. } => self.word(memory, index),
            Op::Not(a) => self.prefix(b"~", a),
            Op::And(a, b) => self.infix(a, b" & ", b),
            Op::Or(a, b) => self.infix(a, b" | ", b),
            Op::Xor(a, b) => self.infix(a, b" ^ ", b),
            Op::Add(a, b) => self.infix(a, b" + ", b),
            Op::Sub(a, b) => self.infix(a, b" - ", b),
            Op::Mul(a, b) => self.infix(a, b" * ", b),
            Op::Div(a, by) => self.unsigned_by(a, b" / ", by),
            Op::Rem(a, by) => self.unsigned_by(a, b" % ", by),
            Op::SDiv(a, by) => self.signed_by(a, b" / ", by),
            Op::SRem(a, by) => self.signed_by(a, b" % ", by),
            Op::Shl(a, b) => self.infix(a, b" << ", b),
            Op::Shr(a, b) => self.infix(a, b" >> ", b),
            Op::Sar(a, b) => self.signed_shift(a, b),
            Op::Eq(a, b) => self.infix(a, b" == ", b),
            Op::Lt(a, b) => self.infix(a, b" < ", b),
            Op::SLt(a, b) => self.signed_less(a, b),
            Op::Parity(a) => self.prefix(b"^", a),
            Op::Choice(a, b, c) => self.choice(a, b, c),
            Op::Concat(a, b) => self.concat(a, b),
            Op::Slice { node, high, low } => self.slice(node, high, low),
            Op::Copies { node, times } => self.copies(node, times),
        }
    }

    /// Takes the name of an input pin.
    fn pin(&mut self, netlist: &Netlist, pin: usize)
        ensures { Takes S.written S.faults self.old self.new (get_or (map (λ i. i.name) netlist.now.inputs) pin []) }
    {
        if let Some(wire) = netlist.inputs.get(pin) {
            self.put(wire.name.as_str().as_bytes());
        }
    }

    /// Takes the name of a process's acknowledgement.
    pub fn ack(&mut self, process: u32)
        ensures { Takes S.written S.faults self.old self.new (ack_name process) }
    {
        self.host(process);
        self.put(b"_ack");
    }

    /// Takes the name of an item of a process's reply.
    pub fn ret(&mut self, process: u32, item: usize)
        ensures { Takes S.written S.faults self.old self.new (ret_name process item) }
    {
        self.host(process);
        self.put(b"_ret");
        self.number(item);
    }

    /// Takes a word of a memory.
    fn word(&mut self, memory: u32, index: u32)
        ensures { Takes S.written S.faults self.old self.new (memory_name memory ++ codes "[" ++ node_name index ++ codes "]") }
    {
        self.memory(memory as usize);
        self.put(b"[");
        self.node(index as usize);
        self.put(b"]");
    }

    /// Takes an operator before a node.
    fn prefix(&mut self, operator: &[u8], a: u32)
        ensures { Takes S.written S.faults self.old self.new (operator.now ++ node_name a) }
    {
        self.put(operator);
        self.node(a as usize);
    }

    /// Takes an operator between two nodes.
    fn infix(&mut self, a: u32, operator: &[u8], b: u32)
        ensures { Takes S.written S.faults self.old self.new (infix_text operator.now a b) }
    {
        self.node(a as usize);
        self.put(operator);
        self.node(b as usize);
    }

    /// Takes a node as signed.
    fn signed(&mut self, a: u32)
        ensures { Takes S.written S.faults self.old self.new (signed_text a) }
    {
        self.put(b"$signed(");
        self.node(a as usize);
        self.put(b")");
    }

    /// Takes an operator between a node and a constant.
    fn unsigned_by(&mut self, a: u32, operator: &[u8], by: Bits)
        ensures { Takes S.written S.faults self.old self.new (node_name a ++ operator.now ++ constant_text by) }
    {
        self.node(a as usize);
        self.put(operator);
        self.constant(by);
    }

    /// Takes an operator between a node and a constant, both as signed.
    fn signed_by(&mut self, a: u32, operator: &[u8], by: Bits)
        ensures { Takes S.written S.faults self.old self.new (signed_text a ++ operator.now ++ signed_constant_text by) }
    {
        self.signed(a);
        self.put(operator);
        self.signed_constant(by);
    }

    /// Takes a shift that copies the sign.
    fn signed_shift(&mut self, a: u32, b: u32)
        ensures { Takes S.written S.faults self.old self.new (signed_text a ++ codes " >>> " ++ node_name b) }
    {
        self.signed(a);
        self.put(b" >>> ");
        self.node(b as usize);
    }

    /// Takes a comparison of two nodes as signed.
    fn signed_less(&mut self, a: u32, b: u32)
        ensures { Takes S.written S.faults self.old self.new (signed_text a ++ codes " < " ++ signed_text b) }
    {
        self.signed(a);
        self.put(b" < ");
        self.signed(b);
    }

    /// Takes a choice.
    fn choice(&mut self, a: u32, b: u32, c: u32)
        ensures { Takes S.written S.faults self.old self.new (node_name a ++ codes " ? " ++ node_name b ++ codes " : " ++ node_name c) }
    {
        self.node(a as usize);
        self.put(b" ? ");
        self.node(b as usize);
        self.put(b" : ");
        self.node(c as usize);
    }

    /// Takes a concatenation.
    fn concat(&mut self, a: u32, b: u32)
        ensures { Takes S.written S.faults self.old self.new (codes "{" ++ node_name a ++ codes ", " ++ node_name b ++ codes "}") }
    {
        self.put(b"{");
        self.node(a as usize);
        self.put(b", ");
        self.node(b as usize);
        self.put(b"}");
    }

    /// Takes a slice.
    fn slice(&mut self, a: u32, high: u32, low: u32)
        ensures { Takes S.written S.faults self.old self.new (node_name a ++ codes "[" ++ decimal high ++ codes ":" ++ decimal low ++ codes "]") }
    {
        self.node(a as usize);
        self.put(b"[");
        self.number(high as usize);
        self.put(b":");
        self.number(low as usize);
        self.put(b"]");
    }

    /// Takes so many copies of a node.
    fn copies(&mut self, a: u32, times: u32)
        ensures { Takes S.written S.faults self.old self.new (codes "{" ++ decimal times ++ codes "{" ++ node_name a ++ codes "}}") }
    {
        self.put(b"{");
        self.number(times as usize);
        self.put(b"{");
        self.node(a as usize);
        self.put(b"}}");
    }
}
