//! The tokens of an expanded text.
#![tactic(auto)]

mod bytes;
mod digits;
mod fronts;
mod kinds;
mod lexer;
mod longest;
mod operators;
mod views;

pub use digits::{BasedValue, based_value, capped_value, wrapped_value};
pub use kinds::{Kind, Token, Tokens};
pub use lexer::{lex, one_reading};
pub use views::{place_at, spelling, spelling_at};
