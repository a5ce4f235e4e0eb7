//! The program as one call: from the words of a command line to what is written and the status.
#![tactic(auto)]

mod answer;
mod command;
mod laws;
mod note;
mod status;
mod top;

pub use laws::{one_answer, some_answer, whole_answer};
pub use status::Status;
pub use top::xtc;
