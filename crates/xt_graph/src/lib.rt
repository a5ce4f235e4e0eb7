//! Directed graphs: an order of the nodes, the circles, and what is reached. Each takes time that grows with nodes and edges.
#![tactic(auto)]

mod finishing;
mod graph;
mod labelling;
mod ordering;
mod searching;

pub use graph::Graph;
pub use labelling::circles;
pub use ordering::order;
pub use searching::reached;
