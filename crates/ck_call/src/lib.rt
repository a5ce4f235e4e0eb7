//! Rules on tasks, functions and imports of a flat design: purity, recursion, arguments, disables, host calls and nesting.
#![tactic(auto)]

mod arguments;
mod assigned;
mod check;
mod findings;
mod lines;
mod measures;
mod nodes;
mod owners;
mod places;
mod purity;
mod reach;
mod recursion;
mod routines;
mod targets;
mod texts;
mod weights;

pub use check::check_calls;
