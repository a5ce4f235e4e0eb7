//! The cases of the parsers: a source's tree, shown in one line.
#![tactic(auto)]

mod expressions;
mod modules;
mod statements;

pub use expressions::expression;
pub use modules::tree;
