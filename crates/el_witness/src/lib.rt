//! Witnesses of the flat design's definitions: a design that is checked and runs, accepted neighbours of refused designs, and each operator
//! and each form of target once. Each is the contract of a function that does nothing.
#![tactic(auto)]

mod designs;
mod loops;
mod rows;
mod rules;

pub use designs::{longest_loop_is_checked, meter_is_checked, meter_runs, meter_tells};
pub use loops::{nesting_of_routines, sizes_of_designs, turns_of_loops, walks_without_waits};
pub use rows::{operators_are_right, targets_are_right};
pub use rules::{
    both_assignments, impure_functions, inner_host_calls, misfitting_arguments, nets_in_circles,
    reads_across_processes, recursive_routines, two_writers, wrong_disables,
};
