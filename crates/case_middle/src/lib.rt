//! The cases of the elaborator: what the names of a source stand for, constants, and typed expressions.
#![tactic(auto)]

mod expressions;
mod forms;
mod meanings;
mod scopes;

pub use expressions::{form, value};
pub use scopes::names;
