//! The compiler: from a source of one process to its netlist.
ghost use Rattle.std.specs.Prelude.{◌≡◌, true, List, IfOk, All};
ghost use Rattle.el_design.specs.Plain.{Statement};
ghost use Rattle.el_design.specs.View.{statement_of, flat_of};
ghost use Rattle.nt_core.specs.Conditions.{Drive, IsNetlist};
ghost use Rattle.nt_core.specs.Text.{text_of};
ghost use Rattle.xt_bits.specs.Word.{word};
ghost use Rattle.xt_compile.specs.first.Source.{IsSource, waits};
ghost use Rattle.xt_compile.specs.first.Flatten.{design_of};
ghost use Rattle.xt_compile.specs.first.Form.{IsOfForm, IsStatement, var_widths, net_widths};
ghost use Rattle.xt_compile.specs.Hardware.{IsHardwareOf};
ghost use Rattle.xt_compile.specs.first.Compiled.{HasPins, IsBuilt, Ticks};
ghost use Rattle.xt_compile.specs.first.Machine.{HasBody, statements_of};
ghost use Rattle.xt_compile.specs.first.Nodes.{AreSourced, Means, HasWidth, IsMap, register_widths};

mod expression;
mod map;
mod process;
mod shell;

use crate::first::compile::expression::ValueMap;
use crate::first::compile::map::{register, value_map};
use crate::first::compile::process::{STATE_WIDTH, step};
use crate::first::compile::shell::{drives, input_pins, output_pins, registers};
use crate::first::counts::number;
use crate::first::flatten::flatten;
use crate::first::source::Source;
use el_design::{Design, Stmt};
use nt_core::{Builder, Netlist, Op, Shell};
use std::alloc::Global;
use xt_base::NoMemory;
use xt_bits::Bits;

/// The netlist of a source. Where the source's process waits, it is the hardware of the source's design.
pub fn compile(alloc: Global, source: &Source) -> Result<Netlist, NoMemory>
    requires { IsSource source.now }
    ensures { IfOk result (λ n. waits source.now ≡ true → IsHardwareOf (design_of source.now) (text_of n)) }
{
    let design = flatten(alloc, source)?;
    netlist(alloc, &design)
}

/// The netlist of a design.
///
/// The registers are the variables, in their order, and then the control point of the process: 0 at the start, and k at
/// its k-th wait, from 1. Each edge of the clock takes one tick.
fn netlist(alloc: Global, design: &Design) -> Result<Netlist, NoMemory>
    requires { IsOfForm design.now }
    ensures ticks { IfOk result (λ n. HasPins design.now n × (body : List Statement) × HasBody (flat_of design.now) body × Ticks design.now n body) }
    ensures netlist { IfOk result IsNetlist }
{
    let mut builder = Builder::new(alloc);
    let map = value_map(alloc, design, &mut builder)?;
    let state = register(design, design.vars.len(), STATE_WIDTH, &mut builder)?;
    let edge = always_up(design, &mut builder)?;
    let nexts = step(alloc, design, body(design), &map, state, &mut builder)?;
    finish(alloc, design, builder, &map, edge, nexts)
}

/// A node that is 1.
fn always_up(design: &Design, builder: &mut Builder) -> Result<u32, NoMemory>
    ensures { IfOk result (λ node. Means design.now builder.old builder.new node 1 (λ s. word 1 1)) }
{
    builder.node(Op::Const(Bits::new(1, 1)))
}

/// The statements of the process.
fn body(design: &Design) -> &[Stmt]
    requires { IsOfForm design.now }
    ensures statements { All (λ s. IsStatement (var_widths design.now) (net_widths design.now) (statement_of s)) result.now }
    ensures body { HasBody (flat_of design.now) (statements_of result.now) }
{
    match design.procs.get(0) {
        Some(process) => match &process.body {
            Stmt::Block { body, .. } => body.as_slice(),
            _ => &[],
        },
        None => &[],
    }
}

/// The netlist of these nodes.
fn finish(
    alloc: Global,
    design: &Design,
    builder: Builder,
    map: &ValueMap,
    edge: u32,
    nexts: Vec<u32>,
) -> Result<Netlist, NoMemory>
    requires form { IsOfForm design.now }
    requires nodes { AreSourced design.now builder }
    requires map { IsMap design.now builder map.now }
    requires edge { HasWidth builder edge 1 }
    requires nexts { Drive builder nexts.items (register_widths design.now) }
    ensures built { IfOk result (λ n. IsBuilt design.now n map.now edge builder nexts.items) }
    ensures netlist { IfOk result IsNetlist }
{
    let processes = number(design.procs.len())?;
    let inputs = input_pins(alloc, design)?;
    let outputs = output_pins(alloc, design)?;
    let registers = registers(alloc, design)?;
    let drives = drives(alloc, design, map, edge)?;
    let netlist = builder.finish(Shell {
        version: 1,
        processes,
        functions: Vec::new(alloc),
        inputs,
        outputs,
        hosts: Vec::new(alloc),
        registers,
        memories: Vec::new(alloc),
        drives,
        nexts,
        writes: Vec::new(alloc),
    });
    Ok(kept(netlist))
}

/// The same netlist, which meets the conditions of netlists.
fn kept(netlist: Netlist) -> Netlist
    ensures same { result ≡ netlist }
    ensures netlist { IsNetlist result }
{
    // Its type keeps them: that is seen once a part of it is read.
    let _version = netlist.version;
    netlist
}
