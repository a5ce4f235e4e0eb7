//! Sizes, which stop growing past the limit of a process.
ghost use Rattle.std.specs.Prelude.{◌≡◌, ◌+◌};
ghost use Rattle.ck_call.specs.inner.Weights.{capped, node_weight, nodes_weight};

use crate::nodes::Node;

/// One more than the greatest size of a process: it stands for all greater ones.
const CAP: u32 = 20_001;

/// The sum of two sizes.
pub(crate) fn add(one: u32, other: u32) -> u32
    ensures { result ≡ capped (one + other) }
{
    let sum = u64::from(one) + u64::from(other);
    if sum < u64::from(CAP) {
        sum as u32
    } else {
        CAP
    }
}

/// The size of a node by itself.
fn node_weight(node: Node) -> u32
    ensures { result ≡ node_weight node }
{
    match node {
        Node::Word(_) => 2,
        Node::Resize => 0,
        Node::Net(_) => 1,
        Node::Var(_) => 1,
        Node::Call(_, _) => 1,
        Node::Other => 1,
    }
}

/// The size of nodes by themselves.
pub(crate) fn nodes_weight(nodes: &[Node]) -> u32
    ensures { result ≡ capped (nodes_weight nodes.now) }
{
    let mut weight = 0;
    for node in nodes {
        weight = add(weight, node_weight(*node));
    }
    weight
}
