//! Names, constants, lengths and signs: the expressions of one instance, with what clause 5 of IEEE 1364-2005 says of them.
#![tactic(auto)]

mod calls;
mod environment;
mod laws;
mod lengths;
mod made;
mod numbers;
mod operands;
mod operators;
mod read;
mod selects;
mod values;

pub use calls::{constant, type_expr};
pub use environment::{Constant, Env, Meaning, Object, Routine};
pub use laws::{constants_have_their_value, forms_have_their_length};
