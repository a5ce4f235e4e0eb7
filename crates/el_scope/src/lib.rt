//! The names of a source: what each name stands for, and the rules of refusal on names.
#![tactic(auto)]

mod connecting;
mod declaring;
mod driving;
mod findings;
mod naming;
mod nesting;
mod passes;
mod reached;
mod scopes;
mod table;

pub use scopes::Scopes;
