//! The preprocessor: from files with directives and macros to one text whose bytes have places.
#![tactic(auto)]

mod arguments;
mod clean;
mod defines;
mod directives;
mod expansion;
mod faults;
mod groups;
mod inputs;
mod lines;
mod loads;
mod macros;
mod pieces;
mod source;
mod state;
mod steps;
mod stopped;
mod substitution;
mod table;
mod text;
mod uses;

pub use defines::Defines;
pub use directives::is_directive;
pub use faults::PreFault;
pub use source::expand;
pub use text::Text;
