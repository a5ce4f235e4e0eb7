//! The values of the nodes, each written into its place.
ghost use Rattle.std.specs.Prelude.{◌≡◌};
ghost use Rattle.nt_core.specs.Forms.{HasOperands, widths};
ghost use Rattle.nt_core.specs.Conditions.{IsNetlist};
ghost use Rattle.nt_core.specs.Fitting.{value_widths, SourcesFit};
ghost use Rattle.nt_core.specs.NodeValue.{value_of};
ghost use Rattle.nt_core.specs.Tick.{tick_values, settled};
ghost use Rattle.nt_run.specs.Acknowledged.{driven_by};
ghost use Rattle.nt_run.specs.Order.{IsOrder};

use crate::acks::Acks;
use crate::orders::Step;
use nt_core::{Inputs, Netlist, Op, State, form_value};
use xt_base::Item;
use xt_bits::Bits;

/// Writes the values of all nodes in a tick with the row of the inputs and with these acknowledgements.
pub(crate) fn evaluate(
    netlist: &Netlist,
    steps: &[Step],
    inputs: &Inputs,
    acks: &Acks,
    state: &State,
    values: &mut [Bits],
)
    requires fits { SourcesFit netlist.now (record { inputs = inputs.now; state = state.now }) }
    requires design { IsNetlist netlist.now }
    requires steps { IsOrder netlist.now.nodes steps.now }
    requires values { value_widths values.old ≡ widths netlist.now.nodes }
    ensures { values.new ≡ tick_values netlist.now (driven_by inputs.now.row acks.now) state.now }
{
    for step in steps {
        let value = value_in_tick(inputs, acks, state, &values[..step.place], &step.op);
        values[step.place] = value;
    }
}

/// Writes the values of a tick over those of a settling. Where nothing is acknowledged they are the same.
pub(crate) fn reevaluate(
    netlist: &Netlist,
    steps: &[Step],
    inputs: &Inputs,
    acks: &Acks,
    state: &State,
    values: &mut [Bits],
)
    requires fits { SourcesFit netlist.now (record { inputs = inputs.now; state = state.now }) }
    requires design { IsNetlist netlist.now }
    requires steps { IsOrder netlist.now.nodes steps.now }
    requires values { value_widths values.old ≡ widths netlist.now.nodes }
    requires settled { values.old ≡ settled netlist.now inputs.now.row state.now }
    ensures { values.new ≡ tick_values netlist.now (driven_by inputs.now.row acks.now) state.now }
{
    if !acks.is_quiet() {
        evaluate(netlist, steps, inputs, acks, state, values);
    }
}

/// The value of a form over the values of the earlier nodes.
fn value_in_tick(inputs: &Inputs, acks: &Acks, state: &State, values: &[Bits], op: &Op) -> Bits
    requires { HasOperands (value_widths values.now) op.now }
    ensures { result ≡ value_of (record { inputs = driven_by inputs.now.row acks.now; state = state.now }) values.now op.now }
{
    match *op {
        Op::Ack { process } => Bits::new(1, acks.is_acknowledged(process) as Item),
        Op::Ret {
            process,
            item,
            width,
        } => Bits::new(width, acks.item(process, item)),
        _ => form_value(inputs, state, values, op),
    }
}
