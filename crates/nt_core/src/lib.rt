//! The netlist of a written design: its parts, its conditions, and what a tick of it means.
#![tactic(auto)]

mod builder;
mod conditions;
mod evaluation;
mod laws;
mod netlist;
mod operands;

pub use builder::Builder;
pub use conditions::{are_nodes, is_pin_name};
pub use evaluation::{Inputs, State, evaluate, form_value, is_row, tick};
pub use laws::{has_one_trace, has_values_of_forms};
pub use netlist::{Function, HostPins, MemWrite, Memory, Netlist, Node, Op, Shell, Wire};
pub use operands::{can_follow, has_operands};
