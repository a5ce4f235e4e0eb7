//! The nodes that read registers and pins.
ghost use Rattle.std.specs.Prelude.{◌≡◌, ◌==◌, ◌<◌, IfOk, OnOk, length, map, get_or, slice_get, position, Some};
ghost use Rattle.xt_bits.specs.Word.{word};
ghost use Rattle.nt_core.specs.Forms.{IsWidth};
ghost use Rattle.el_design.specs.Queue.{pin_value};
ghost use Rattle.el_design.specs.View.{flat_of};
ghost use Rattle.xt_compile.specs.Hardware.{input_pins};
ghost use Rattle.xt_compile.specs.first.Form.{IsOfForm, var_widths, net_widths};
ghost use Rattle.xt_compile.specs.first.Machine.{read_pins};
ghost use Rattle.xt_compile.specs.first.Nodes.{Extends, Means, MeansEach, IsMap, Reads, read_registers, register_widths};

use crate::first::compile::expression::ValueMap;
use crate::first::counts::number;
use el_design::Design;
use nt_core::{Builder, Op};
use std::alloc::Global;
use xt_base::NoMemory;
use xt_bits::Bits;

/// The nodes that read the registers of the variables and the input pins. A net that is no input pin is 0.
pub fn value_map(
    alloc: Global,
    design: &Design,
    builder: &mut Builder,
) -> Result<ValueMap, NoMemory>
    requires { IsOfForm design.now }
    ensures extends { OnOk result (Extends design.now builder.old builder.new) }
    ensures map { IfOk result (IsMap design.now builder.new) }
    ensures reads { IfOk result (Reads design.now builder.new) }
{
    let vars = vars(alloc, design, builder)?;
    let nets = nets(alloc, design, builder)?;
    Ok(ValueMap { vars, nets })
}

/// The nodes that read the registers of the variables.
fn vars(alloc: Global, design: &Design, builder: &mut Builder) -> Result<Vec<u32>, NoMemory>
    requires { IsOfForm design.now }
    ensures { IfOk result (λ nodes. MeansEach design.now builder.old builder.new nodes.items (var_widths design.now) (λ s. read_registers (var_widths design.now) s.state.registers)) }
{
    let mut nodes = Vec::new(alloc);
    for place in 0..design.vars.len() {
        let width = var_width(design, place);
        nodes.push(register(design, place, width, builder)?)?;
    }
    Ok(nodes)
}

fn var_width(design: &Design, place: usize) -> u32
    requires form { IsOfForm design.now }
    requires place { place < length design.now.vars }
    ensures there { slice_get (var_widths design.now) place ≡ Some result }
    ensures width { IsWidth result }
{
    design.vars.as_slice()[place].width
}

/// The node that reads a register.
pub fn register(
    design: &Design,
    place: usize,
    width: u32,
    builder: &mut Builder,
) -> Result<u32, NoMemory>
    requires width { IsWidth width }
    requires there { slice_get (register_widths design.now) place ≡ Some width }
    ensures { IfOk result (λ node. Means design.now builder.old builder.new node width (λ s. get_or s.state.registers place (word width 0))) }
{
    let reg = number(place)?;
    builder.node(Op::Reg { reg, width })
}

/// The nodes of the nets.
fn nets(alloc: Global, design: &Design, builder: &mut Builder) -> Result<Vec<u32>, NoMemory>
    requires { IsOfForm design.now }
    ensures { IfOk result (λ nodes. MeansEach design.now builder.old builder.new nodes.items (net_widths design.now) (λ s. read_pins (flat_of design.now) (net_widths design.now) s.inputs.row)) }
{
    let mut nodes = Vec::new(alloc);
    for place in 0..design.nets.len() {
        let width = net_width(design, place);
        nodes.push(net_node(design, place, width, builder)?)?;
    }
    Ok(nodes)
}

fn net_width(design: &Design, place: usize) -> u32
    requires form { IsOfForm design.now }
    requires place { place < length design.now.nets }
    ensures there { slice_get (net_widths design.now) place ≡ Some result }
    ensures width { IsWidth result }
{
    design.nets.as_slice()[place].width
}

/// The node that reads the input pin of a net, or is 0 where there is none.
fn net_node(
    design: &Design,
    place: usize,
    width: u32,
    builder: &mut Builder,
) -> Result<u32, NoMemory>
    requires width { IsWidth width }
    requires there { slice_get (net_widths design.now) place ≡ Some width }
    ensures { IfOk result (λ node. Means design.now builder.old builder.new node width (λ s. pin_value (flat_of design.now) s.inputs.row place width)) }
{
    let net = number(place)?;
    match pin_of(design, net) {
        Some(pin) => pin_node(design, pin, width, builder),
        None => zero_node(design, width, builder),
    }
}

/// The place of a net among the input pins.
fn pin_of(design: &Design, net: u32) -> Option<usize>
    ensures { result ≡ position (λ n. n == net) design.now.inputs }
{
    design
        .inputs
        .as_slice()
        .iter()
        .position(|input| *input == net)
}

fn pin_node(design: &Design, pin: usize, width: u32, builder: &mut Builder) -> Result<u32, NoMemory>
    requires width { IsWidth width }
    requires there { slice_get (map (λ i. i.width) (input_pins design.now)) pin ≡ Some width }
    ensures { IfOk result (λ node. Means design.now builder.old builder.new node width (λ s. get_or s.inputs.row pin (word width 0))) }
{
    let pin = number(pin)?;
    builder.node(Op::Pin { pin, width })
}

fn zero_node(design: &Design, width: u32, builder: &mut Builder) -> Result<u32, NoMemory>
    requires { IsWidth width }
    ensures { IfOk result (λ node. Means design.now builder.old builder.new node width (λ s. word width 0)) }
{
    builder.node(Op::Const(Bits::new(width, 0)))
}
