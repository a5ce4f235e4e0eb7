//! The parts of a netlist.

use std::marker::Model;
use xt_base::Name;
use xt_bits::Bits;

/// The netlist of a written design. Its parts stand in the order of the design text.
#[derive(Debug, Drop)]
pub struct Netlist {
    /// The version of the design text.
    pub version: u32,
    /// How many processes the design serves.
    pub processes: u32,
    /// The host's functions, by their number.
    pub functions: Vec<Function>,
    /// The input pins, in port order.
    pub inputs: Vec<Wire>,
    /// The output pins, in port order.
    pub outputs: Vec<Wire>,
    /// The pins of each process with host calls, by rising process.
    pub hosts: Vec<HostPins>,
    /// The start value of each register.
    pub registers: Vec<Bits>,
    /// The memories, which start at 0.
    pub memories: Vec<Memory>,
    /// The nodes, each after its operands.
    pub nodes: Vec<Node>,
    /// The node that drives each output port, in port order.
    pub drives: Vec<u32>,
    /// The node of each register's next value.
    pub nexts: Vec<u32>,
    /// The writes to memories, oldest first.
    pub writes: Vec<MemWrite>,
}

impl Model for Netlist {
    ghost use Rattle.nt_core.specs.Parts.{Parts};
    ghost use Rattle.nt_core.specs.Conditions.{IsNetlist};
    ghost use Rattle.nt_core.specs.View.{parts_of};

    ghost Value = { Parts };

    ghost view = { parts_of };

    ghost invariant = { λ n. IsNetlist (parts_of n) };
}

/// All parts of a netlist but its nodes.
#[derive(Debug, Drop)]
pub struct Shell {
    pub version: u32,
    pub processes: u32,
    pub functions: Vec<Function>,
    pub inputs: Vec<Wire>,
    pub outputs: Vec<Wire>,
    pub hosts: Vec<HostPins>,
    pub registers: Vec<Bits>,
    pub memories: Vec<Memory>,
    pub drives: Vec<u32>,
    pub nexts: Vec<u32>,
    pub writes: Vec<MemWrite>,
}

impl Model for Shell {
    ghost use Rattle.nt_core.specs.Parts.{ShellParts};

    ghost Value = { ShellParts };

    ghost view = { λ s. record { version = s.version; processes = s.processes; functions = s.functions.items; inputs = s.inputs.items; outputs = s.outputs.items; hosts = s.hosts.items; registers = s.registers.items; memories = s.memories.items; drives = s.drives.items; nexts = s.nexts.items; writes = s.writes.items } };
}

/// A function of the host.
#[derive(Debug, Drop)]
pub struct Function {
    pub name: Name,
    /// The widths of its inputs, in bits.
    pub ins: Vec<u32>,
    /// The widths of the items of its reply, in bits.
    pub rets: Vec<u32>,
}

impl Model for Function {
    ghost use Rattle.nt_core.specs.FunctionLine.{FunctionLine};

    ghost Value = { FunctionLine };

    ghost view = { λ f. record { name = f.name; ins = f.ins.items; rets = f.rets.items } };
}

/// A pin.
#[derive(Debug, Drop)]
pub struct Wire {
    pub name: Name,
    /// The width in bits.
    pub width: u32,
}

/// The pins of a process with host calls.
#[derive(Debug, Drop)]
pub struct HostPins {
    pub process: u32,
    /// The widths of its reply pins, in bits.
    pub rets: Vec<u32>,
    /// The widths of its argument pins, in bits.
    pub args: Vec<u32>,
}

impl Model for HostPins {
    ghost use Rattle.nt_core.specs.HostLine.{HostLine};

    ghost Value = { HostLine };

    ghost view = { λ h. record { process = h.process; rets = h.rets.items; args = h.args.items } };
}

/// A memory, whose words start at 0.
#[derive(Clone, Copy, Debug, PartialEq, Eq)]
pub struct Memory {
    /// The width of a word in bits.
    pub width: u32,
    /// How many words it has.
    pub words: u32,
}

/// A node: a wire of the design with its form.
#[derive(Clone, Copy, Debug, PartialEq, Eq, Hash)]
pub struct Node {
    /// The width in bits.
    pub width: u32,
    pub op: Op,
}

/// A write to a memory: where `when` is up, the word at `index` takes `value`.
#[derive(Clone, Copy, Debug, PartialEq, Eq)]
pub struct MemWrite {
    pub memory: u32,
    /// The node of the condition.
    pub when: u32,
    /// The node of the place in the memory.
    pub index: u32,
    /// The node of the word.
    pub value: u32,
}

/// The form of a node. A number without a name is an operand's node.
#[derive(Clone, Copy, Debug, PartialEq, Eq, Hash)]
pub enum Op {
    /// An input pin, by its place.
    Pin { pin: u32, width: u32 },
    /// Whether the process's request is acknowledged in this tick.
    Ack { process: u32 },
    /// An item of the process's reply.
    Ret { process: u32, item: u32, width: u32 },
    /// A register, by its place.
    Reg { reg: u32, width: u32 },
    Const(Bits),
    /// The word of a memory, 0 past its end.
    Word { memory: u32, index: u32, width: u32 },
    Not(u32),
    And(u32, u32),
    Or(u32, u32),
    Xor(u32, u32),
    Add(u32, u32),
    Sub(u32, u32),
    Mul(u32, u32),
    /// Unsigned, by a constant that isn't 0.
    Div(u32, Bits),
    /// What is left of that division.
    Rem(u32, Bits),
    /// Signed, cut towards 0.
    SDiv(u32, Bits),
    /// What is left of that division; it has the sign of the operand.
    SRem(u32, Bits),
    /// The first operand shifted to the left by the second; zeros come in.
    Shl(u32, u32),
    /// To the right; zeros come in.
    Shr(u32, u32),
    /// To the right; copies of the highest bit come in.
    Sar(u32, u32),
    Eq(u32, u32),
    /// Whether the first operand is less than the second.
    Lt(u32, u32),
    /// The same, of signed numbers.
    SLt(u32, u32),
    /// Whether the number of ones is odd.
    Parity(u32),
    /// The second operand where the first is 1, else the third.
    Choice(u32, u32, u32),
    /// The first operand above the second.
    Concat(u32, u32),
    /// The bits from `high` down to `low`.
    Slice { node: u32, high: u32, low: u32 },
    /// One bit, so many times.
    Copies { node: u32, times: u32 },
}
