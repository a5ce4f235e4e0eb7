//! The meaning of a netlist, computed plainly: slow and obvious, for faster bodies to be compared with.
ghost use Rattle.std.specs.Prelude.{◌≡◌, ◌↔◌, ℕ, ◌+◌, ◌-◌, ◌<◌, ◌≤◌, List, [], false, pos, if◌then◌else◌, get_or, slice_index, length, map, replicate, slice_set, fold, All, IfOk, IsTrue};
ghost use Rattle.xt_bits.specs.Word.{word, truth};
ghost use Rattle.xt_bits.specs.Operators.{any_of, select_of};
ghost use Rattle.nt_core.specs.Forms.{IsWidth, HasOperands, widths};
ghost use Rattle.nt_core.specs.Sources.{silent};
ghost use Rattle.nt_core.specs.Fitting.{value_widths, HasPinWidths, IsState, SourcesFit};
ghost use Rattle.nt_core.specs.NodeValue.{value_at, value_of, copies_of};
ghost use Rattle.nt_core.specs.Tick.{start, tick_values, written, tick};

use crate::netlist::{MemWrite, Netlist, Op, Wire};
use std::alloc::Global;
use std::marker::Model;
use xt_base::{Item, NoMemory};
use xt_bits::Bits;

/// What stands on the input pins in a tick.
#[derive(Debug, Drop)]
pub struct Inputs {
    /// The values on the source's pins, in port order.
    pub row: Vec<Bits>,
    /// For each process whether its request is acknowledged; false where there is no entry.
    pub acks: Vec<bool>,
    /// For each process the items of its reply; 0 where there is no entry.
    pub items: Vec<Vec<Item>>,
}

impl Model for Inputs {
    ghost use Rattle.std.specs.Prelude.{map};
    ghost use Rattle.nt_core.specs.Sources as sources;

    ghost Value = { sources.Inputs };

    ghost view = { λ i. record { row = i.row.items; acks = i.acks.items; items = map (λ v. v.items) i.items.items } };
}

impl Inputs {
    /// The row, with no acknowledgement and no items, as in a settling.
    pub fn silent(alloc: Global, row: Vec<Bits>) -> Inputs
        ensures { result ≡ silent row.items }
    {
        Inputs {
            row,
            acks: Vec::new(alloc),
            items: Vec::new(alloc),
        }
    }
}

/// What the registers and the words of the memories hold.
#[derive(Debug, Drop)]
pub struct State {
    pub registers: Vec<Bits>,
    pub memories: Vec<Vec<Bits>>,
}

impl Model for State {
    ghost use Rattle.std.specs.Prelude.{map};
    ghost use Rattle.nt_core.specs.Sources as sources;

    ghost Value = { sources.State };

    ghost view = { λ s. record { registers = s.registers.items; memories = map (λ v. v.items) s.memories.items } };
}

impl State {
    /// The registers at their start values, and the memories at 0.
    #[tactic(auto, using(crate::proofs::States::start_ok))]
    pub fn start(alloc: Global, netlist: &Netlist) -> Result<State, NoMemory>
        ensures value { IfOk result (λ s. s ≡ start netlist.now) }
        ensures fits { IfOk result (λ s. IsState netlist.now s) }
    {
        start_state(alloc, netlist)
    }
}

fn start_state(alloc: Global, netlist: &Netlist) -> Result<State, NoMemory>
    ensures { IfOk result (λ s. s ≡ start netlist.now) }
{
    let registers = Vec::from_slice(alloc, netlist.registers.as_slice())?;
    let mut memories = Vec::new(alloc);
    for memory in netlist.memories.as_slice() {
        memories.push(zeros(alloc, memory.width, memory.words)?)?;
    }
    Ok(State {
        registers,
        memories,
    })
}

/// So many words of 0.
fn zeros(alloc: Global, width: u32, words: u32) -> Result<Vec<Bits>, NoMemory>
    requires { IsWidth width }
    ensures { IfOk result (λ v. v.items ≡ replicate words (word width 0)) }
{
    let mut zeros = Vec::new(alloc);
    for _word in 0..words {
        zeros.push(Bits::new(width, 0))?;
    }
    Ok(zeros)
}

/// Whether there is one value for each input pin, of its width.
pub fn is_row(netlist: &Netlist, row: &[Bits]) -> bool
    ensures { IsTrue result ↔ HasPinWidths netlist.now row.now }
{
    fit(row, netlist.inputs.as_slice())
}

/// Whether there is one value for each pin, of its width.
#[tactic(auto, using(std::proofs::lemmas::Grind::same_number_lists))]
fn fit(values: &[Bits], pins: &[Wire]) -> bool
    ensures { IsTrue result ↔ (value_widths values.now ≡ map (λ p. p.width) pins.now) }
{
    if values.len() != pins.len() {
        return false;
    }
    for i in 0..pins.len() {
        if value_width(values, i) != pin_width(pins, i) {
            return false;
        }
    }
    true
}

fn value_width(values: &[Bits], i: usize) -> u32
    requires { i < length values.now }
    ensures { result ≡ slice_index (value_widths values.now) i }
{
    values[i].width()
}

fn pin_width(pins: &[Wire], i: usize) -> u32
    requires { i < length pins.now }
    ensures { result ≡ slice_index (map (λ p. p.width) pins.now) i }
{
    pins[i].width
}

/// The values of all nodes in a tick with these inputs.
pub fn evaluate(
    alloc: Global,
    netlist: &Netlist,
    inputs: &Inputs,
    state: &State,
) -> Result<Vec<Bits>, NoMemory>
    requires { SourcesFit netlist.now (record { inputs = inputs.now; state = state.now }) }
    ensures { IfOk result (λ values. values.items ≡ tick_values netlist.now inputs.now state.now) }
{
    let mut values = Vec::new(alloc);
    for node in netlist.nodes.as_slice() {
        let value = form_value(inputs, state, values.as_slice(), &node.op);
        values.push(value)?;
    }
    Ok(values)
}

/// The state after a tick with these inputs.
pub fn tick(
    alloc: Global,
    netlist: &Netlist,
    inputs: &Inputs,
    state: State,
) -> Result<State, NoMemory>
    requires { SourcesFit netlist.now (record { inputs = inputs.now; state = state }) }
    ensures value { IfOk result (λ after. after ≡ tick netlist.now inputs.now state) }
    ensures fits { IfOk result (λ after. IsState netlist.now after) }
{
    let values = evaluate(alloc, netlist, inputs, &state)?;
    let registers = values_at(alloc, values.as_slice(), netlist.nexts.as_slice())?;
    let memories = memories_after(netlist, values.as_slice(), state.memories);
    Ok(State {
        registers,
        memories,
    })
}

/// The memories after the writes of a tick in which the nodes have these values.
fn memories_after(
    netlist: &Netlist,
    values: &[Bits],
    mut memories: Vec<Vec<Bits>>,
) -> Vec<Vec<Bits>>
    requires values { length values.now ≡ length netlist.now.nodes }
    requires memories { length memories.items ≡ length netlist.now.memories }
    ensures { map (λ v. v.items) result.items ≡ fold (written values.now) (map (λ v. v.items) memories.items) netlist.now.writes }
{
    for entry in netlist.writes.as_slice() {
        write(&mut memories, values, entry);
    }
    memories
}

/// The values of these nodes.
fn values_at(alloc: Global, values: &[Bits], nodes: &[u32]) -> Result<Vec<Bits>, NoMemory>
    requires { All (λ a. a < length values.now) nodes.now }
    ensures { IfOk result (λ v. v.items ≡ map (value_at values.now) nodes.now) }
{
    let mut picked = Vec::new(alloc);
    for a in nodes {
        picked.push(value(values, *a))?;
    }
    Ok(picked)
}

/// Writes the word, where the condition is up and the memory has it.
fn write(memories: &mut Vec<Vec<Bits>>, values: &[Bits], entry: &MemWrite)
    requires memory { entry.now.memory < length memories.old.items }
    requires when { entry.now.when < length values.now }
    requires index { entry.now.index < length values.now }
    requires value { entry.now.value < length values.now }
    ensures { map (λ v. v.items) memories.new.items ≡ written values.now (map (λ v. v.items) memories.old.items) entry.now }
{
    if value(values, entry.when).any() {
        let word = value(values, entry.value);
        set_word(
            &mut memories[entry.memory as usize],
            value(values, entry.index).value(),
            word,
        );
    }
}

/// Sets the word at a place; past the end nothing is set.
fn set_word(words: &mut Vec<Bits>, place: Item, word: Bits)
    ensures { words.new.items ≡ slice_set words.old.items place word }
{
    if place < words.len() as Item {
        words[place as usize] = word;
    }
}

/// The value of a form over the values of the earlier nodes.
pub fn form_value(inputs: &Inputs, state: &State, values: &[Bits], op: &Op) -> Bits
    requires { HasOperands (value_widths values.now) op.now }
    ensures { result ≡ value_of (record { inputs = inputs.now; state = state.now }) values.now op.now }
{
    match *op {
        Op::Pin { pin, width } => at(inputs.row.as_slice(), pin as Item, width),
        Op::Ack { process } => truth(is_acknowledged(inputs, process)),
        Op::Ret {
            process,
            item,
            width,
        } => Bits::new(width, reply_item(inputs, process, item)),
        Op::Reg { reg, width } => at(state.registers.as_slice(), reg as Item, width),
        Op::Const(k) => k,
        Op::Word {
            memory,
            index,
            width,
        } => word_at(state, memory, value(values, index).value(), width),
        Op::Not(a) => value(values, a).not(),
        Op::And(a, b) => value(values, a).and(value(values, b)),
        Op::Or(a, b) => value(values, a).or(value(values, b)),
        Op::Xor(a, b) => value(values, a).xor(value(values, b)),
        Op::Add(a, b) => value(values, a).add(value(values, b)),
        Op::Sub(a, b) => value(values, a).sub(value(values, b)),
        Op::Mul(a, b) => value(values, a).mul(value(values, b)),
        Op::Div(a, k) => value(values, a).div_const(k, false),
        Op::Rem(a, k) => value(values, a).rem_const(k, false),
        Op::SDiv(a, k) => value(values, a).div_const(k, true),
        Op::SRem(a, k) => value(values, a).rem_const(k, true),
        Op::Shl(a, b) => value(values, a).shl(value(values, b).value()),
        Op::Shr(a, b) => value(values, a).shr(value(values, b).value()),
        Op::Sar(a, b) => value(values, a).sar(value(values, b).value()),
        Op::Eq(a, b) => truth(value(values, a).eq(value(values, b))),
        Op::Lt(a, b) => truth(value(values, a).lt(value(values, b), false)),
        Op::SLt(a, b) => truth(value(values, a).lt(value(values, b), true)),
        Op::Parity(a) => truth(value(values, a).odd()),
        Op::Choice(a, b, c) => chosen(value(values, a), value(values, b), value(values, c)),
        Op::Concat(a, b) => value(values, a).concat(value(values, b)),
        Op::Slice { node, high, low } => slice(value(values, node), high, low),
        Op::Copies { node, times } => copies(value(values, node), times),
    }
}

/// The value of a node.
fn value(values: &[Bits], a: u32) -> Bits
    requires { a < length values.now }
    ensures value { result ≡ value_at values.now a }
    ensures width { result.width ≡ slice_index (value_widths values.now) a }
{
    values[a as usize]
}

/// The value at a place; past the end 0 of the width.
fn at(values: &[Bits], place: Item, width: u32) -> Bits
    requires { IsWidth width }
    ensures { result ≡ get_or values.now place (word width 0) }
{
    if place < values.len() as Item {
        values[place as usize]
    } else {
        Bits::new(width, 0)
    }
}

/// The word of a memory; past the end 0 of the width.
fn word_at(state: &State, memory: u32, index: Item, width: u32) -> Bits
    requires { IsWidth width }
    ensures { result ≡ get_or (get_or state.now.memories memory []) index (word width 0) }
{
    match state.memories.get(memory as usize) {
        Some(words) => at(words.as_slice(), index, width),
        None => Bits::new(width, 0),
    }
}

/// Whether the process's request is acknowledged.
fn is_acknowledged(inputs: &Inputs, process: u32) -> bool
    ensures { result ≡ get_or inputs.now.acks process false }
{
    inputs.acks.get(process as usize).copied().unwrap_or(false)
}

/// An item of the process's reply.
fn reply_item(inputs: &Inputs, process: u32, item: u32) -> Item
    ensures { result ≡ slice_index (get_or inputs.now.items process []) item }
{
    match inputs.items.get(process as usize) {
        Some(items) => items.get(item as usize).copied().unwrap_or(0),
        None => 0,
    }
}

/// One bit: 1 for true.
fn truth(up: bool) -> Bits
    ensures { result ≡ truth up }
{
    Bits::new(1, if up { 1 } else { 0 })
}

/// The first value where the condition is up, else the second.
fn chosen(condition: Bits, yes: Bits, no: Bits) -> Bits
    ensures { result ≡ (if any_of condition then yes else no) }
{
    if condition.any() { yes } else { no }
}

/// The bits from `high` down to `low`.
fn slice(whole: Bits, high: u32, low: u32) -> Bits
    requires order { low ≤ high }
    requires within { high < whole.width }
    ensures { result ≡ select_of whole (pos low) (high - low + 1) }
{
    prove!(high < whole.width());
    whole.select(low as i128, high - low + 1)
}

/// A bit so many times.
#[tactic(auto, using(crate::proofs::Copies::extend_of_one))]
fn copies(bit: Bits, times: u32) -> Bits
    requires one { bit.width ≡ 1 }
    requires times { IsWidth times }
    ensures { result ≡ copies_of bit times }
{
    prove!(bit.value() <= 1);
    bit.extend(times, true)
}
