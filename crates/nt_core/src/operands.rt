//! Whether a node fits those before it, and its width.
ghost use Rattle.std.specs.Prelude.{◌≡◌, ◌≢◌, ◌+◌, ◌<◌, ◌≤◌, ◌↔◌, length, slice_index, IfSome, IsTrue};
ghost use Rattle.xt_bits.specs.Word.{IsKept};
ghost use Rattle.nt_core.specs.Forms.{IsWidth, AreAlike, CanBeDivided, HasOperands, IsNode, constant_of, form_width, widths};

use crate::netlist::{Node, Op};
use xt_base::{Item, MAX_WIDTH};
use xt_bits::Bits;

/// Whether the form's operands are earlier nodes of fitting widths, as `Builder::node` asks.
pub fn has_operands(nodes: &[Node], op: &Op) -> bool
    ensures { IsTrue result ↔ HasOperands (widths nodes.now) op.now }
{
    match *op {
        Op::Pin { width, .. } | Op::Ret { width, .. } | Op::Reg { width, .. } => is_width(width),
        Op::Ack { .. } | Op::Const(_) => true,
        Op::Word { index, width, .. } => is_node(nodes, index) && is_width(width),
        Op::Not(a) | Op::Parity(a) => is_node(nodes, a),
        Op::And(a, b)
        | Op::Or(a, b)
        | Op::Xor(a, b)
        | Op::Add(a, b)
        | Op::Sub(a, b)
        | Op::Mul(a, b)
        | Op::Eq(a, b)
        | Op::Lt(a, b)
        | Op::SLt(a, b) => are_alike(nodes, a, b),
        Op::Div(a, k) | Op::Rem(a, k) | Op::SDiv(a, k) | Op::SRem(a, k) => {
            can_be_divided(nodes, a, k)
        }
        Op::Shl(a, b) | Op::Shr(a, b) | Op::Sar(a, b) => is_node(nodes, a) && is_node(nodes, b),
        Op::Choice(a, b, c) => is_bit(nodes, a) && are_alike(nodes, b, c),
        Op::Concat(a, b) => can_be_joined(nodes, a, b),
        Op::Slice { node, high, low } => has_bits(nodes, node, high, low),
        Op::Copies { node, times } => is_bit(nodes, node) && is_width(times),
    }
}

/// Whether the node can stand behind these: its operands fit, and its width is its form's.
pub fn can_follow(nodes: &[Node], node: &Node) -> bool
    ensures { IsTrue result ↔ IsNode (widths nodes.now) node.now }
{
    is_constant_in_range(&node.op)
        && has_operands(nodes, &node.op)
        && node.width == form_width(nodes, &node.op)
}

/// The width that a form gives over the earlier nodes, in bits.
pub(crate) fn form_width(nodes: &[Node], op: &Op) -> u32
    requires { HasOperands (widths nodes.now) op.now }
    ensures { result ≡ form_width (widths nodes.now) op.now }
{
    match *op {
        Op::Pin { width, .. }
        | Op::Ret { width, .. }
        | Op::Reg { width, .. }
        | Op::Word { width, .. } => width,
        Op::Ack { .. } | Op::Eq(..) | Op::Lt(..) | Op::SLt(..) | Op::Parity(_) => 1,
        Op::Const(value) => value.width(),
        Op::Not(a)
        | Op::And(a, _)
        | Op::Or(a, _)
        | Op::Xor(a, _)
        | Op::Add(a, _)
        | Op::Sub(a, _)
        | Op::Mul(a, _)
        | Op::Div(a, _)
        | Op::Rem(a, _)
        | Op::SDiv(a, _)
        | Op::SRem(a, _)
        | Op::Shl(a, _)
        | Op::Shr(a, _)
        | Op::Sar(a, _)
        | Op::Choice(_, a, _) => width_at(nodes, a),
        Op::Concat(a, b) => width_at(nodes, a) + width_at(nodes, b),
        Op::Slice { node, high, low } => {
            prove!(high < width_at(nodes, node));
            high - low + 1
        }
        Op::Copies { times, .. } => times,
    }
}

/// Whether the constant of a form is in its range, which its type keeps.
#[tactic(auto, using(xt_bits::proofs::Numbers::ones_shr_max))]
pub(crate) fn is_constant_in_range(op: &Op) -> bool
    ensures kept { IfSome (constant_of op.now) (λ k. IsKept k.width k.value) }
    ensures always { IsTrue result }
{
    match *op {
        Op::Const(k) | Op::Div(_, k) | Op::Rem(_, k) | Op::SDiv(_, k) | Op::SRem(_, k) => {
            k.value() <= Item::MAX >> (MAX_WIDTH - k.width())
        }
        _ => true,
    }
}

/// Whether a width is in range.
pub(crate) fn is_width(width: u32) -> bool
    ensures { IsTrue result ↔ IsWidth width }
{
    1 <= width && width <= MAX_WIDTH
}

/// Whether there is such a node.
pub(crate) fn is_node(nodes: &[Node], a: u32) -> bool
    ensures { IsTrue result ↔ (a < length (widths nodes.now)) }
{
    (a as usize) < nodes.len()
}

/// A node's width, in bits.
pub(crate) fn width_at(nodes: &[Node], a: u32) -> u32
    requires { a < length nodes.now }
    ensures { result ≡ slice_index (widths nodes.now) a }
{
    nodes[a as usize].width
}

/// Whether there are two such nodes, of one width.
fn are_alike(nodes: &[Node], a: u32, b: u32) -> bool
    ensures { IsTrue result ↔ AreAlike (widths nodes.now) a b }
{
    is_node(nodes, a) && is_node(nodes, b) && width_at(nodes, a) == width_at(nodes, b)
}

/// Whether there is such a node, and the constant has its width and isn't 0.
fn can_be_divided(nodes: &[Node], a: u32, k: Bits) -> bool
    ensures { IsTrue result ↔ CanBeDivided (widths nodes.now) a k }
{
    is_node(nodes, a) && k.width() == width_at(nodes, a) && k.value() != 0
}

/// Whether there is such a node, of one bit.
fn is_bit(nodes: &[Node], a: u32) -> bool
    ensures { IsTrue result ↔ ((a < length (widths nodes.now)) × (slice_index (widths nodes.now) a ≡ 1)) }
{
    is_node(nodes, a) && width_at(nodes, a) == 1
}

/// Whether there are two such nodes whose widths together are in range.
fn can_be_joined(nodes: &[Node], a: u32, b: u32) -> bool
    ensures { IsTrue result ↔ HasOperands (widths nodes.now) (Op.Concat a b) }
{
    is_node(nodes, a)
        && is_node(nodes, b)
        && width_at(nodes, a) <= MAX_WIDTH
        && width_at(nodes, b) <= MAX_WIDTH - width_at(nodes, a)
}

/// Whether there is such a node of more than one bit, and it has the bits.
fn has_bits(nodes: &[Node], a: u32, high: u32, low: u32) -> bool
    ensures { IsTrue result ↔ HasOperands (widths nodes.now) (Op.Slice a high low) }
{
    is_node(nodes, a) && 2 <= width_at(nodes, a) && low <= high && high < width_at(nodes, a)
}
