//! How a tick ends.

/// How a tick ended.
#[derive(Clone, Copy, Debug, PartialEq, Eq)]
pub enum TickEnd {
    /// A tick was made, and the edge goes on.
    Ticked,
    /// A tick was made, the edge goes on, and a request was up without an acknowledgement.
    Waiting,
    /// A tick was made, and it ended the edge.
    EdgeDone,
    /// No tick was made: the edge has begun, and no request is up.
    Stalled,
}
