//! The expressions of the grammar, read from left to right.
//!
//! `parse_expr` reads one from the tokens of a text. The functions over `Terminal`s read from tokens that were told apart once,
//! by `terminals`, and have the same contracts; where there is no tree they give the number of the token at which reading stops.
#![tactic(auto)]

mod classes;
mod found;
mod nodes;
mod parse;
mod reader;
mod words;

pub use classes::{expect, is_at, is_name};
pub use found::{Found, ParseError};
pub use parse::{one_expr, parse_expr, refused};
pub use reader::{args_at, expr_at, exprs_at, selects_at};
pub use words::terminals;
