//! The form of sources that is compiled today: one `always` process of clock waits and nonblocking assignments of sums.

pub mod compile;
mod counts;
mod flatten;
pub mod laws;
mod names;
mod numbers;
pub mod reader;
pub mod source;
pub mod tokens;
