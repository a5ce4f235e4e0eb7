//! The machine that ticks a netlist.
#![tactic(auto)]

mod acks;
mod ends;
mod evaluation;
mod orders;
mod ports;
mod runner;
mod state;

pub use acks::Acks;
pub use ends::TickEnd;
pub use runner::Runner;

/// The greatest number of items of a reply.
pub const MAX_ITEMS: usize = 16;
