//! What reading gives.
use thiserror::Error;

/// A part that was read: its tree, the number of the token behind it, and the depth of the tree.
#[derive(Drop)]
pub struct Found<T> {
    pub tree: T,
    pub end: u32,
    pub depth: u32,
}

/// Why nothing was read.
#[derive(Debug, Drop, PartialEq, Eq, Error)]
pub enum ParseError {
    /// The tokens are none of the grammar; reading stopped at this one, or at the number of tokens where they end.
    #[error("the tokens make no tree: reading stopped at token {at}")]
    NoTree { at: u32 },
    #[error("out of memory")]
    Memory,
}
