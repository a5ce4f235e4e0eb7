//! Case files, and what a case gives to a call: its fields, its source, and how an answer is shown.
#![tactic(auto)]

mod fields;
mod sources;
mod stop;
mod texts;

pub use fields::{Case, Field, cases_of};
pub use sources::{as_text, expansion, files, first_line, numbers, source, text};
pub use stop::Stop;
pub use texts::{add_bytes, add_token, expanded, failed, refused, tokens};
