//! The syntax tree of a source, read from its tokens from left to right.
#![tactic(auto)]

mod classes;
mod declarations;
mod input;
mod items;
mod lists;
mod modules;
mod part;
mod routines;
mod simple;
mod source;
mod statements;

pub use source::{one_tree, parse};
