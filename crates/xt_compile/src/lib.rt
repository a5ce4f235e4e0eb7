//! The compiler: from a source to the netlist that does what the source does.
//!
//! Today it compiles one small form of sources, `first`. The compiler of all checked designs is to stand beside it, and then it goes.
#![tactic(auto)]

mod first;
mod laws;

pub use first::compile::compile;
pub use first::laws::sources_are_checked;
pub use first::reader::read;
pub use first::source::{Port, Source, Step, Sum, Term};
pub use first::tokens::FormError;
pub use laws::calls_are_listed;
