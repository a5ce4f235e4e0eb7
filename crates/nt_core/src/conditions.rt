//! Whether a shell and nodes keep the conditions of a netlist.
ghost use Rattle.std.specs.Prelude.{◌≡◌, ◌≢◌, ℕ, ◌+◌, ◌<◌, ◌≤◌, ◌↔◌, ◌++◌, ◌∷◌, [], List, map, flat_map, length, slice_get, slice_index, take, Some, IsSome, option_copied, All, AllPairs, IsTrue};
ghost use Rattle.std.specs.List.Sorted.{IsStrictlyIncreasing};
ghost use Rattle.xt_bits.specs.Word.{IsKept};
ghost use Rattle.xt_base.specs.Identifiers.{is_identifier};
ghost use Rattle.nt_core.specs.Names.{is_pin_name};
ghost use Rattle.nt_core.specs.Conditions.{AreWidths, IsFunction, IsPin, IsHost, AreHosts, IsMemory, HasSource, Drive, IsWrite, HasCounts, HasParts, HasPins, IsConnected, IsShell, AreNodes, host_port_widths, port_widths, host_of, reply_widths};
ghost use Rattle.nt_core.specs.Forms.{IsWidth, IsNode, widths};
ghost use Rattle.nt_core.specs.declared.netlist.Node.{Node};
ghost use Rattle.nt_core.specs.Parts.{assembled};

use crate::netlist::{Function, HostPins, MemWrite, Memory, Netlist, Node, Op, Shell, Wire};
use crate::operands::{can_follow, is_width};
use xt_base::{Item, MAX_WIDTH, is_identifier};
use xt_bits::Bits;

/// Whether a name is an identifier that a pin may have.
pub fn is_pin_name(name: &[u8]) -> bool
    ensures { result ≡ is_pin_name name.now }
{
    is_identifier(name) && !name.starts_with(b"xtc_")
}

/// Whether there are at most 16 widths, each in range.
fn are_widths(widths: &[u32]) -> bool
    ensures { IsTrue result ↔ AreWidths widths.now }
{
    widths.len() <= 16 && widths.iter().all(|w| is_width(*w))
}

/// Whether each function has an identifier as its name, and not too many inputs and items.
fn are_functions(functions: &[Function]) -> bool
    ensures { IsTrue result ↔ All IsFunction functions.now }
{
    functions.iter().all(|f| is_function(f))
}

fn is_function(function: &Function) -> bool
    ensures { IsTrue result ↔ IsFunction function.now }
{
    is_identifier(function.name.as_str().as_bytes())
        && are_widths(function.ins.as_slice())
        && are_widths(function.rets.as_slice())
}

/// Whether each pin has a pin's name and a width in range.
fn are_pins(pins: &[Wire]) -> bool
    ensures { IsTrue result ↔ All IsPin pins.now }
{
    pins.iter().all(|p| is_pin(p))
}

fn is_pin(pin: &Wire) -> bool
    ensures { IsTrue result ↔ IsPin pin.now }
{
    is_pin_name(pin.name.as_str().as_bytes()) && is_width(pin.width)
}

fn is_host(processes: u32, host: &HostPins) -> bool
    ensures { IsTrue result ↔ IsHost processes host.now }
{
    host.process < processes && are_widths(host.rets.as_slice()) && are_widths(host.args.as_slice())
}

fn is_memory(memory: &Memory) -> bool
    ensures { IsTrue result ↔ IsMemory memory.now }
{
    is_width(memory.width) && 1 <= memory.words && memory.words <= 65536
}

/// Whether no two pins have one name. It compares each pair.
#[tactic(auto, using(crate::proofs::Apart::apart_both, crate::proofs::Apart::apart_left, crate::proofs::Apart::apart_right, crate::proofs::Apart::apart_cross))]
fn are_distinct(inputs: &[Wire], outputs: &[Wire]) -> bool
    ensures { IsTrue result ↔ AllPairs (λ a b. a.name ≢ b.name) (inputs.now ++ outputs.now) }
{
    are_apart(inputs) && are_apart(outputs) && differ(inputs, outputs)
}

/// Whether each pin has another name than each of the others.
fn differ(pins: &[Wire], others: &[Wire]) -> bool
    ensures { IsTrue result ↔ All (λ pin. All (λ other. pin.name ≢ other.name) others.now) pins.now }
{
    pins.iter().all(|pin| differs(pin, others))
}

/// Whether no two pins of a list have one name.
fn are_apart(pins: &[Wire]) -> bool
    ensures { IsTrue result ↔ AllPairs (λ a b. a.name ≢ b.name) pins.now }
{
    for i in 0..pins.len() {
        if !differs(&pins[i], &pins[i + 1..]) {
            return false;
        }
    }
    true
}

/// Whether a pin has another name than each of the others.
fn differs(pin: &Wire, others: &[Wire]) -> bool
    ensures { IsTrue result ↔ All (λ other. pin.now.name ≢ other.name) others.now }
{
    others
        .iter()
        .all(|other| pin.name.as_str() != other.name.as_str())
}

/// Whether the hosts' processes rise.
fn are_rising(hosts: &[HostPins]) -> bool
    ensures { IsTrue result ↔ IsStrictlyIncreasing (map (λ h. h.process) hosts.now) }
{
    for i in 1..hosts.len() {
        if process_at(hosts, i - 1) >= process_at(hosts, i) {
            return false;
        }
    }
    true
}

fn process_at(hosts: &[HostPins], i: usize) -> u32
    requires { i < length hosts.now }
    ensures { result ≡ slice_index (map (λ h. h.process) hosts.now) i }
{
    let host = &hosts[i];
    host.process
}

/// Whether there is a pin of the width at this place.
fn has_pin(pins: &[Wire], pin: u32, width: u32) -> bool
    ensures { IsTrue result ↔ (slice_get (map (λ p. p.width) pins.now) pin ≡ Some width) }
{
    match pins.get(pin as usize) {
        Some(pin) => pin.width == width,
        None => false,
    }
}

/// Whether there is a register of the width at this place.
fn has_register(registers: &[Bits], register: u32, width: u32) -> bool
    ensures { IsTrue result ↔ (slice_get (map (λ k. k.width) registers.now) register ≡ Some width) }
{
    match registers.get(register as usize) {
        Some(start) => start.width() == width,
        None => false,
    }
}

/// Whether there is a memory with words of the width at this place.
fn has_memory(memories: &[Memory], memory: u32, width: u32) -> bool
    ensures { IsTrue result ↔ (slice_get (map (λ m. m.width) memories.now) memory ≡ Some width) }
{
    match memories.get(memory as usize) {
        Some(memory) => memory.width == width,
        None => false,
    }
}

/// The host of a process, if it has one.
fn host_of(hosts: &[HostPins], process: u32) -> Option<&HostPins>
    ensures { option_copied result ≡ host_of hosts.now process }
{
    hosts.iter().find(|host| host.process == process)
}

/// Whether the process has a host.
fn has_host(hosts: &[HostPins], process: u32) -> bool
    ensures { IsTrue result ↔ IsSome (host_of hosts.now process) }
{
    host_of(hosts, process).is_some()
}

/// Whether the process has a host whose reply has an item of the width at this place.
fn has_item(hosts: &[HostPins], process: u32, item: u32, width: u32) -> bool
    ensures { IsTrue result ↔ (slice_get (reply_widths (host_of hosts.now process)) item ≡ Some width) }
{
    match host_of(hosts, process) {
        Some(host) => is_at(host.rets.as_slice(), item, width),
        None => false,
    }
}

/// Whether the width stands at this place.
fn is_at(widths: &[u32], place: u32, width: u32) -> bool
    ensures { IsTrue result ↔ (slice_get widths.now place ≡ Some width) }
{
    match widths.get(place as usize) {
        Some(found) => *found == width,
        None => false,
    }
}

/// Whether there is such a node, and it has the width.
fn is_driven(nodes: &[Node], a: u32, width: u32) -> bool
    ensures { IsTrue result ↔ (slice_get (widths nodes.now) a ≡ Some width) }
{
    match nodes.get(a as usize) {
        Some(node) => node.width == width,
        None => false,
    }
}

/// Whether each form reads what the shell has, in its width.
fn has_sources(shell: &Shell, nodes: &[Node]) -> bool
    ensures { IsTrue result ↔ All (λ m. HasSource (assembled shell.now nodes.now) m.op) nodes.now }
{
    nodes.iter().all(|node| has_source(shell, nodes, &node.op))
}

/// Whether a form reads what the shell has, in its width.
fn has_source(shell: &Shell, nodes: &[Node], op: &Op) -> bool
    ensures { IsTrue result ↔ HasSource (assembled shell.now nodes.now) op.now }
{
    match *op {
        Op::Pin { pin, width } => has_pin(shell.inputs.as_slice(), pin, width),
        Op::Ack { process } => has_host(shell.hosts.as_slice(), process),
        Op::Ret {
            process,
            item,
            width,
        } => has_item(shell.hosts.as_slice(), process, item, width),
        Op::Reg { reg, width } => has_register(shell.registers.as_slice(), reg, width),
        Op::Word { memory, width, .. } => has_memory(shell.memories.as_slice(), memory, width),
        _ => true,
    }
}

/// Whether the nodes drive the output pins.
#[tactic(auto, using(crate::proofs::Drives::drive_each, crate::proofs::Drives::drive_length, crate::proofs::Drives::drive_all))]
fn drive_pins(nodes: &[Node], drives: &[u32], outputs: &[Wire]) -> bool
    ensures { IsTrue result ↔ Drive nodes.now drives.now (map (λ o. o.width) outputs.now) }
{
    if drives.len() != outputs.len() {
        return false;
    }
    for i in 0..drives.len() {
        if !is_driven(nodes, drives[i], outputs[i].width) {
            return false;
        }
    }
    true
}

/// Whether the nodes drive the registers.
#[tactic(auto, using(crate::proofs::Drives::drive_each, crate::proofs::Drives::drive_length, crate::proofs::Drives::drive_all))]
fn drive_registers(nodes: &[Node], drives: &[u32], registers: &[Bits]) -> bool
    ensures { IsTrue result ↔ Drive nodes.now drives.now (map (λ k. k.width) registers.now) }
{
    if drives.len() != registers.len() {
        return false;
    }
    for i in 0..drives.len() {
        if !is_driven(nodes, drives[i], registers[i].width()) {
            return false;
        }
    }
    true
}

/// Whether the nodes drive pins of these widths.
#[tactic(auto, using(crate::proofs::Drives::drive_each, crate::proofs::Drives::drive_length, crate::proofs::Drives::drive_all))]
fn drive_widths(nodes: &[Node], drives: &[u32], widths: &[u32]) -> bool
    ensures { IsTrue result ↔ Drive nodes.now drives.now widths.now }
{
    if drives.len() != widths.len() {
        return false;
    }
    for i in 0..drives.len() {
        if !is_driven(nodes, drives[i], widths[i]) {
            return false;
        }
    }
    true
}

/// Whether the nodes drive a host's output ports.
fn drive_host(nodes: &[Node], drives: &[u32], host: &HostPins) -> bool
    ensures { IsTrue result ↔ Drive nodes.now drives.now (host_port_widths host.now) }
{
    match drives {
        [request, function, arguments @ ..] => {
            is_driven(nodes, *request, 1)
                && is_driven(nodes, *function, 8)
                && drive_widths(nodes, arguments, host.args.as_slice())
        }
        _ => false,
    }
}

/// Whether the nodes drive all hosts' output ports.
fn drive_hosts(nodes: &[Node], drives: &[u32], hosts: &[HostPins]) -> bool
    ensures { IsTrue result ↔ Drive nodes.now drives.now (flat_map host_port_widths hosts.now) }
{
    let mut rest = drives;
    for host in hosts {
        let arguments = host.args.as_slice();
        if rest.len() < 2 || rest.len() - 2 < arguments.len() {
            return false;
        }
        let (own, others) = rest.split_at(2 + arguments.len());
        if !drive_host(nodes, own, host) {
            return false;
        }
        rest = others;
    }
    rest.is_empty()
}

/// Whether the nodes drive the output ports.
fn drive_ports(nodes: &[Node], drives: &[u32], outputs: &[Wire], hosts: &[HostPins]) -> bool
    ensures { IsTrue result ↔ Drive nodes.now drives.now (1 ∷ map (λ o. o.width) outputs.now ++ flat_map host_port_widths hosts.now) }
{
    if drives.len() <= outputs.len() {
        return false;
    }
    let (own, others) = drives.split_at(outputs.len() + 1);
    if !drive_own(nodes, own, outputs) {
        return false;
    }
    drive_hosts(nodes, others, hosts)
}

/// Whether the nodes drive `xtc_edge` and the output pins.
fn drive_own(nodes: &[Node], drives: &[u32], outputs: &[Wire]) -> bool
    ensures { IsTrue result ↔ Drive nodes.now drives.now (1 ∷ map (λ o. o.width) outputs.now) }
{
    match drives.split_first() {
        Some((edge, pins)) => is_driven(nodes, *edge, 1) && drive_pins(nodes, pins, outputs),
        None => false,
    }
}

/// Whether a write names a memory and nodes that there are, of fitting widths.
fn is_write(shell: &Shell, nodes: &[Node], write: &MemWrite) -> bool
    ensures { IsTrue result ↔ IsWrite (assembled shell.now nodes.now) write.now }
{
    match shell.memories.get(write.memory as usize) {
        Some(memory) => {
            is_driven(nodes, write.when, 1)
                && (write.index as usize) < nodes.len()
                && is_driven(nodes, write.value, memory.width)
        }
        None => false,
    }
}

/// Whether a register's start value is in its range, which its type keeps.
#[tactic(auto, using(xt_bits::proofs::Numbers::ones_shr_max))]
fn is_kept(start: &Bits) -> bool
    ensures { IsTrue result ↔ IsKept start.now.width start.now.value }
{
    start.value() <= Item::MAX >> (MAX_WIDTH - start.width())
}

impl Shell {
    /// Whether this shell and these nodes keep all conditions of a netlist but those on the nodes alone, which
    /// `are_nodes` tells.
    ///
    /// It compares the names of each pair of pins.
    pub fn fits(&self, nodes: &[Node]) -> bool
        ensures { IsTrue result ↔ IsShell (assembled self.now nodes.now) }
    {
        are_distinct(self.inputs.as_slice(), self.outputs.as_slice()) && self.fits_distinct(nodes)
    }

    /// The same of a shell no two of whose pins have one name.
    ///
    /// Its time is linear in the length of the parts.
    pub fn fits_distinct(&self, nodes: &[Node]) -> bool
        requires { AllPairs (λ a b. a.name ≢ b.name) (self.now.inputs ++ self.now.outputs) }
        ensures { IsTrue result ↔ IsShell (assembled self.now nodes.now) }
    {
        has_counts(self, nodes)
            && has_parts(self, nodes)
            && has_pins(self, nodes)
            && is_connected(self, nodes)
    }

    /// The netlist of this shell and these nodes.
    pub fn with_nodes(self, nodes: Vec<Node>) -> Netlist
        requires shell { IsShell (assembled self nodes.items) }
        requires nodes { AreNodes nodes.items }
        ensures { result ≡ assembled self nodes.items }
    {
        Netlist {
            version: self.version,
            processes: self.processes,
            functions: self.functions,
            inputs: self.inputs,
            outputs: self.outputs,
            hosts: self.hosts,
            registers: self.registers,
            memories: self.memories,
            nodes,
            drives: self.drives,
            nexts: self.nexts,
            writes: self.writes,
        }
    }
}

/// Whether these nodes keep the conditions on nodes alone: there are at most 4,294,967,295, and each can follow those
/// before it.
pub fn are_nodes(nodes: &[Node]) -> bool
    ensures { IsTrue result ↔ AreNodes nodes.now }
{
    is_numbered(nodes.len()) && all_follow(nodes)
}

/// Whether each node can follow those before it.
fn all_follow(nodes: &[Node]) -> bool
    ensures { IsTrue result ↔ ((i : ℕ) (m : Node) → slice_get nodes.now i ≡ Some m → IsNode (take i (widths nodes.now)) m) }
{
    for i in 0..nodes.len() {
        if !can_follow(&nodes[..i], &nodes[i]) {
            return false;
        }
    }
    true
}

/// Whether the version and the counts are in their ranges.
fn has_counts(shell: &Shell, nodes: &[Node]) -> bool
    ensures { IsTrue result ↔ HasCounts (assembled shell.now nodes.now) }
{
    shell.version == 1
        && shell.processes <= 64
        && shell.functions.len() <= 256
        && is_numbered(shell.inputs.len())
        && is_numbered(shell.outputs.len())
        && is_numbered(shell.registers.len())
        && is_numbered(shell.memories.len())
        && is_numbered(shell.writes.len())
}

/// Whether a list of so many entries can be numbered by a `u32`, and its length too.
fn is_numbered(count: usize) -> bool
    ensures { IsTrue result ↔ (count ≤ 4294967295) }
{
    count <= u32::MAX as usize
}

/// Whether the functions, registers, memories and hosts are as they have to be.
fn has_parts(shell: &Shell, nodes: &[Node]) -> bool
    ensures { IsTrue result ↔ HasParts (assembled shell.now nodes.now) }
{
    are_functions(shell.functions.as_slice())
        && are_kept(shell.registers.as_slice())
        && are_memories(shell.memories.as_slice())
        && are_hosts(shell.processes, shell.hosts.as_slice())
}

/// Whether the pins, no two of which have one name, are as they have to be.
fn has_pins(shell: &Shell, nodes: &[Node]) -> bool
    requires { AllPairs (λ a b. a.name ≢ b.name) (shell.now.inputs ++ shell.now.outputs) }
    ensures { IsTrue result ↔ HasPins (assembled shell.now nodes.now) }
{
    are_pins(shell.inputs.as_slice()) && are_pins(shell.outputs.as_slice())
}

/// Whether the nodes read what there is, and drive all that is to be driven.
fn is_connected(shell: &Shell, nodes: &[Node]) -> bool
    ensures { IsTrue result ↔ IsConnected (assembled shell.now nodes.now) }
{
    has_sources(shell, nodes)
        && drive_ports(
            nodes,
            shell.drives.as_slice(),
            shell.outputs.as_slice(),
            shell.hosts.as_slice(),
        )
        && drive_registers(nodes, shell.nexts.as_slice(), shell.registers.as_slice())
        && are_writes(shell, nodes)
}

/// Whether each write names a memory and nodes that there are, of fitting widths.
fn are_writes(shell: &Shell, nodes: &[Node]) -> bool
    ensures { IsTrue result ↔ All (IsWrite (assembled shell.now nodes.now)) shell.now.writes }
{
    shell
        .writes
        .iter()
        .all(|write| is_write(shell, nodes, write))
}

fn are_kept(registers: &[Bits]) -> bool
    ensures { IsTrue result ↔ All (λ k. IsKept k.width k.value) registers.now }
{
    registers.iter().all(|start| is_kept(start))
}

fn are_memories(memories: &[Memory]) -> bool
    ensures { IsTrue result ↔ All IsMemory memories.now }
{
    memories.iter().all(|memory| is_memory(memory))
}

fn are_hosts(processes: u32, hosts: &[HostPins]) -> bool
    ensures { IsTrue result ↔ AreHosts processes hosts.now }
{
    is_each_host(processes, hosts) && are_rising(hosts)
}

fn is_each_host(processes: u32, hosts: &[HostPins]) -> bool
    ensures { IsTrue result ↔ All (IsHost processes) hosts.now }
{
    hosts.iter().all(|host| is_host(processes, host))
}
