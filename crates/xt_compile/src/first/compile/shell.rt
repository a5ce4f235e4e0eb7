//! The parts of the netlist beside its nodes.
ghost use Rattle.std.specs.Prelude.{◌≡◌, ◌<◌, ◌∷◌, ◌++◌, [], map, length, IfOk, All};
ghost use Rattle.xt_bits.specs.Word.{word, IsKept};
ghost use Rattle.nt_core.specs.Conditions.{IsNumbered};
ghost use Rattle.el_design.specs.Run.{net_width};
ghost use Rattle.el_design.specs.View.{flat_of};
ghost use Rattle.xt_compile.specs.Hardware.{pin, net_name, shown_width, input_pins, output_pins};
ghost use Rattle.xt_compile.specs.first.Form.{IsOfForm, IsThere};
ghost use Rattle.xt_compile.specs.first.Nodes.{IsShown, node_shown, state_width};

use crate::first::compile::expression::ValueMap;
use crate::first::compile::process::STATE_WIDTH;
use crate::first::counts::numbered;
use el_design::{Design, Source};
use nt_core::Wire;
use std::alloc::Global;
use xt_base::{Item, MAX_WIDTH, Name, NoMemory};
use xt_bits::Bits;

/// The input pins.
pub fn input_pins(alloc: Global, design: &Design) -> Result<Vec<Wire>, NoMemory>
    requires { IsOfForm design.now }
    ensures pins { IfOk result (λ wires. wires.items ≡ input_pins design.now) }
    ensures few { IfOk result (λ wires. IsNumbered wires.items) }
{
    let mut wires = Vec::new(alloc);
    for number in design.inputs.as_slice() {
        wires.push(net_pin(alloc, design, *number)?)?;
    }
    numbered(wires.len())?;
    Ok(wires)
}

/// The output pins.
pub fn output_pins(alloc: Global, design: &Design) -> Result<Vec<Wire>, NoMemory>
    requires { IsOfForm design.now }
    ensures pins { IfOk result (λ wires. wires.items ≡ output_pins design.now) }
    ensures few { IfOk result (λ wires. IsNumbered wires.items) }
{
    let mut wires = Vec::new(alloc);
    for shown in design.outputs.as_slice() {
        let width = shown_width(design, shown.from);
        wires.push(pin(alloc, &shown.name, width)?)?;
    }
    numbered(wires.len())?;
    Ok(wires)
}

fn pin(alloc: Global, name: &Name, width: u32) -> Result<Wire, NoMemory>
    ensures { IfOk result (λ wire. wire ≡ pin name.now width) }
{
    Ok(Wire {
        name: Name::new(alloc, name.as_str())?,
        width,
    })
}

/// The pin of a net.
fn net_pin(alloc: Global, design: &Design, net: u32) -> Result<Wire, NoMemory>
    requires { net < length design.now.nets }
    ensures { IfOk result (λ wire. wire ≡ pin (net_name design.now net) (net_width (flat_of design.now) net)) }
{
    let net = &design.nets.as_slice()[net as usize];
    pin(alloc, &net.name, net.width)
}

fn shown_width(design: &Design, source: Source) -> u32
    requires { IsThere design.now source }
    ensures { result ≡ shown_width (flat_of design.now) source }
{
    match source {
        Source::Var(var) => design.vars.as_slice()[var as usize].width,
        Source::Net(net) => design.nets.as_slice()[net as usize].width,
    }
}

/// The start values of the registers: of the variables, and of the control point.
pub fn registers(alloc: Global, design: &Design) -> Result<Vec<Bits>, NoMemory>
    ensures values { IfOk result (λ starts. starts.items ≡ map (λ v. v.start) design.now.vars ++ word state_width 0 ∷ []) }
    ensures kept { IfOk result (λ starts. All (λ k. IsKept k.width k.value) starts.items) }
    ensures few { IfOk result (λ starts. IsNumbered starts.items) }
{
    let mut starts = Vec::new(alloc);
    for var in design.vars.as_slice() {
        starts.push(kept(var.start))?;
    }
    starts.push(kept(Bits::new(STATE_WIDTH, 0)))?;
    numbered(starts.len())?;
    Ok(starts)
}

/// The same bits, which are in range, as their width and their value tell.
fn kept(bits: Bits) -> Bits
    ensures same { result ≡ bits }
    ensures kept { IsKept result.width result.value }
{
    prove!(bits.width() <= MAX_WIDTH && bits.value() <= Item::MAX);
    bits
}

/// The nodes of the output ports: `xtc_edge`, and each output pin.
pub fn drives(
    alloc: Global,
    design: &Design,
    nodes: &ValueMap,
    edge: u32,
) -> Result<Vec<u32>, NoMemory>
    requires { All (λ p. IsShown nodes.now p.from) design.now.outputs }
    ensures { IfOk result (λ drives. drives.items ≡ edge ∷ map (λ p. node_shown nodes.now p.from) design.now.outputs) }
{
    let mut drives = Vec::new(alloc);
    drives.push(edge)?;
    for pin in design.outputs.as_slice() {
        drives.push(node_shown(nodes, pin.from))?;
    }
    Ok(drives)
}

/// The node of what an output pin shows.
fn node_shown(nodes: &ValueMap, source: Source) -> u32
    requires { IsShown nodes.now source }
    ensures { result ≡ node_shown nodes.now source }
{
    match source {
        Source::Var(var) => nodes.var(var),
        Source::Net(net) => nodes.net(net),
    }
}
