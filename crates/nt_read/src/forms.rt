//! Nodes and their forms.
ghost use Rattle.std.specs.Prelude.{◌≡◌, ◌++◌, ◌∷◌, [], if◌then◌else◌, IfOk, OnOk, drop, map, min};
ghost use Rattle.xt_base.specs.Identifiers.{begins_word};
ghost use Rattle.nt_read.specs.Words.{greatest};
ghost use Rattle.nt_read.specs.Sketch.{is_node_line, node_told, nodes_told};
ghost use Rattle.nt_read.specs.Forms.{own, after_own, place_of, comparison_form, infix_form, signed_form, host_form, own_form, braced_form, marked_form, form};

use crate::memory::put;
use crate::sketch::is_node_line;
use crate::words::{byte_at, constant, is_digit, line, number, range, skip, word};
use indexmap::IndexSet;
use nt_core::{Node, Op};
use std::alloc::Global;
use xt_base::{NoMemory, begins_word};

/// The number of a name of the design's own, as of node `xtc_n` and its number, and what follows it.
pub fn own(text: &[u8]) -> (u32, &[u8])
    ensures value { result.0 ≡ own greatest text.now }
    ensures rest { result.1.now ≡ after_own text.now }
{
    number(skip(text, 5))
}

/// The node whose name stands behind so many bytes.
fn operand(text: &[u8], skipped: usize) -> u32
    ensures { result ≡ own greatest (drop skipped text.now) }
{
    own(skip(text, skipped)).0
}

/// The form of a node of a width, over the names of the pins.
pub fn form(names: &IndexSet<&[u8]>, width: u32, text: &[u8]) -> Op
    ensures { result ≡ form greatest (map (λ k. k.now) names.now.keys) width text.now }
{
    if is_digit(byte_at(text, 0)) {
        Op::Const(constant(text, 2))
    } else if text.starts_with(b"xtc_") {
        own_form(width, text)
    } else if begins_word(byte_at(text, 0)) {
        let pin = place_of(names, word(text).0);
        Op::Pin { pin, width }
    } else {
        marked_form(text)
    }
}

/// The place of a name, their count where it isn't among them; at most `u32::MAX`.
fn place_of(names: &IndexSet<&[u8]>, name: &[u8]) -> u32
    ensures { result ≡ min (place_of (map (λ k. k.now) names.now.keys) name.now) greatest }
{
    let place = names.get_index_of(&name).unwrap_or(names.len());
    place.min(u32::MAX as usize) as u32
}

/// What begins with a name of the design's own.
fn own_form(width: u32, text: &[u8]) -> Op
    ensures { result ≡ own_form greatest width text.now }
{
    let (place, rest) = own(text);
    match byte_at(text, 4) {
        b'n' => infix_form(place, rest),
        b'm' => Op::Word {
            memory: place,
            index: operand(rest, 1),
            width,
        },
        b'r' => Op::Reg { reg: place, width },
        _ => host_form(width, place, rest),
    }
}

/// What follows a process's number: its acknowledgement, or an item of its reply.
fn host_form(width: u32, process: u32, text: &[u8]) -> Op
    ensures { result ≡ host_form greatest width process text.now }
{
    if byte_at(text, 1) == b'a' {
        return Op::Ack { process };
    }
    Op::Ret {
        process,
        item: number(skip(text, 4)).0,
        width,
    }
}

/// What follows node a: a slice, or an operator between blanks.
fn infix_form(a: u32, text: &[u8]) -> Op
    ensures { result ≡ infix_form greatest a text.now }
{
    if byte_at(text, 0) == b'[' {
        let (high, rest) = number(skip(text, 1));
        let low = number(skip(rest, 1)).0;
        return Op::Slice { node: a, high, low };
    }
    match byte_at(text, 1) {
        b'&' => Op::And(a, operand(text, 3)),
        b'|' => Op::Or(a, operand(text, 3)),
        b'^' => Op::Xor(a, operand(text, 3)),
        b'+' => Op::Add(a, operand(text, 3)),
        b'-' => Op::Sub(a, operand(text, 3)),
        b'*' => Op::Mul(a, operand(text, 3)),
        b'/' => Op::Div(a, constant(skip(text, 3), 2)),
        b'%' => Op::Rem(a, constant(skip(text, 3), 2)),
        _ => comparison_form(a, text),
    }
}

/// What follows node a: a choice, or an operator of two bytes, or `<`.
fn comparison_form(a: u32, text: &[u8]) -> Op
    ensures { result ≡ comparison_form greatest a text.now }
{
    match byte_at(text, 1) {
        b'?' => {
            let (b, rest) = own(skip(text, 3));
            Op::Choice(a, b, operand(rest, 3))
        }
        b'>' => Op::Shr(a, operand(text, 4)),
        b'=' => Op::Eq(a, operand(text, 4)),
        _ if byte_at(text, 2) == b'<' => Op::Shl(a, operand(text, 4)),
        _ => Op::Lt(a, operand(text, 3)),
    }
}

/// What follows node a as signed.
fn signed_form(a: u32, text: &[u8]) -> Op
    ensures { result ≡ signed_form greatest a text.now }
{
    match byte_at(text, 1) {
        b'/' => Op::SDiv(a, constant(skip(text, 3), 3)),
        b'%' => Op::SRem(a, constant(skip(text, 3), 3)),
        b'>' => Op::Sar(a, operand(text, 5)),
        _ => Op::SLt(a, operand(text, 11)),
    }
}

/// What begins with a sign.
fn marked_form(text: &[u8]) -> Op
    ensures { result ≡ marked_form greatest text.now }
{
    match byte_at(text, 0) {
        b'~' => Op::Not(operand(text, 1)),
        b'^' => Op::Parity(operand(text, 1)),
        b'$' => {
            let (a, rest) = own(skip(text, 8));
            signed_form(a, skip(rest, 1))
        }
        _ => braced_form(text),
    }
}

/// What stands in braces: copies, which begin with their number, or a concatenation.
fn braced_form(text: &[u8]) -> Op
    ensures { result ≡ braced_form greatest text.now }
{
    if is_digit(byte_at(text, 1)) {
        let (times, rest) = number(skip(text, 1));
        return Op::Copies {
            node: operand(rest, 1),
            times,
        };
    }
    let (a, rest) = own(skip(text, 1));
    Op::Concat(a, operand(rest, 2))
}

/// Puts the node of a line, if it is a node's.
fn tell_node(nodes: &mut Vec<Node>, names: &IndexSet<&[u8]>, line: &[u8]) -> Result<(), NoMemory>
    ensures { OnOk result (nodes.new.items ≡ nodes.old.items ++ (if is_node_line line.now then node_told greatest (map (λ k. k.now) names.now.keys) (drop 7 line.now) ∷ [] else [])) }
{
    if is_node_line(line) {
        return put_node(nodes, names, skip(line, 7));
    }
    Ok(())
}

/// Puts a node: its range, its name, and its form over the names of the pins.
fn put_node(nodes: &mut Vec<Node>, names: &IndexSet<&[u8]>, text: &[u8]) -> Result<(), NoMemory>
    ensures { OnOk result (nodes.new.items ≡ nodes.old.items ++ node_told greatest (map (λ k. k.now) names.now.keys) text.now ∷ []) }
{
    let (width, rest) = range(text);
    let (_, rest) = own(rest);
    let op = form(names, width, skip(rest, 3));
    put(nodes, Node { width, op })
}

/// The nodes that a text tells, over the names of the pins.
pub fn nodes(alloc: Global, names: &IndexSet<&[u8]>, text: &[u8]) -> Result<Vec<Node>, NoMemory>
    ensures { IfOk result (λ nodes. nodes.items ≡ nodes_told greatest (map (λ k. k.now) names.now.keys) text.now) }
{
    let mut nodes = Vec::new(alloc);
    let mut rest = text;
    while !rest.is_empty() {
        let (first, others) = line(rest);
        tell_node(&mut nodes, names, first)?;
        rest = others;
    }
    Ok(nodes)
}
