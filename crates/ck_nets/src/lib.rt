//! The check of nets: that no net's value depends on itself, and the order in which nets are evaluated.
#![tactic(auto)]

mod naming;
mod ordering;

pub use ordering::order_nets;
