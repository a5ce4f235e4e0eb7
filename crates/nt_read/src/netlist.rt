//! A whole text: what it tells, made a netlist, and compared with the netlist's own text.
ghost use Rattle.std.specs.Prelude.{◌≡◌, ◌≢◌, ◌↔◌, ◌++◌, IfOk, MatchOption, AllPairs, IsTrue};
ghost use Rattle.nt_core.specs.Conditions.{IsNetlist, IsShell, AreNodes};
ghost use Rattle.nt_core.specs.Parts.{Parts, assembled};
ghost use Rattle.nt_core.specs.Text.{text_of};
ghost use Rattle.nt_read.specs.Words.{greatest};
ghost use Rattle.nt_read.specs.Names.{names_of};
ghost use Rattle.nt_read.specs.Sketch.{nodes_told};
ghost use Rattle.nt_read.specs.Told.{IsTold};

use crate::forms::nodes;
use crate::names::distinct_names;
use crate::sketch::shell;
use nt_core::{Netlist, Node, Shell, are_nodes};
use nt_write::{WriteEnd, write};
use std::alloc::Global;
use xt_base::{MemSink, NoMemory};

/// The netlist whose text the bytes are; None where there is none.
///
/// The parts are read without looking at what stands between them. A netlist of these parts has one text, with which
/// the bytes are then compared.
pub fn netlist(alloc: Global, bytes: &[u8]) -> Result<Option<Netlist>, NoMemory>
    ensures { IfOk result (λ found. MatchOption found ((n : Parts) → IsNetlist n → text_of n ≢ bytes.now) (IsTold bytes.now)) }
{
    let shell = shell(alloc, bytes)?;
    let Some(nodes) = named_nodes(alloc, &shell, bytes)? else {
        return Ok(None);
    };
    if !are_nodes(nodes.as_slice()) {
        return Ok(None);
    }
    finished(alloc, shell, nodes, bytes)
}

/// The nodes; None where two pins have one name.
fn named_nodes(alloc: Global, shell: &Shell, bytes: &[u8]) -> Result<Option<Vec<Node>>, NoMemory>
    ensures nodes { IfOk result (λ found. MatchOption found (AllPairs (λ a b. a.name ≢ b.name) (shell.now.inputs ++ shell.now.outputs) → ⊥) (λ nodes. nodes.items ≡ nodes_told greatest (names_of (shell.now.inputs ++ shell.now.outputs)) bytes.now)) }
    ensures distinct { IfOk result (λ found. MatchOption found (Unit {0}) (λ nodes. AllPairs (λ a b. a.name ≢ b.name) (shell.now.inputs ++ shell.now.outputs))) }
{
    match distinct_names(alloc, shell.inputs.as_slice(), shell.outputs.as_slice())? {
        Some(names) => Ok(Some(nodes(alloc, &names, bytes)?)),
        None => Ok(None),
    }
}

/// The netlist of these parts, if they make one and the bytes are its text.
fn finished(
    alloc: Global,
    shell: Shell,
    nodes: Vec<Node>,
    bytes: &[u8],
) -> Result<Option<Netlist>, NoMemory>
    requires distinct { AllPairs (λ a b. a.name ≢ b.name) (shell.inputs ++ shell.outputs) }
    requires nodes { AreNodes nodes.items }
    ensures { IfOk result (λ found. MatchOption found (IsShell (assembled shell nodes.items) → text_of (assembled shell nodes.items) ≢ bytes.now) (IsTold bytes.now)) }
{
    if !shell.fits_distinct(nodes.as_slice()) {
        return Ok(None);
    }
    let netlist = shell.with_nodes(nodes);
    if is_text_of(alloc, &netlist, bytes)? {
        Ok(Some(netlist))
    } else {
        Ok(None)
    }
}

/// Whether the bytes are the netlist's text, which is written for it, but no more than one byte past them.
fn is_text_of(alloc: Global, netlist: &Netlist, bytes: &[u8]) -> Result<bool, NoMemory>
    ensures { IfOk result (λ is. IsTrue is ↔ (text_of netlist.now ≡ bytes.now)) }
{
    let mut sink = MemSink::new(alloc, bytes.len() + 1, &[])?;
    match write(alloc, netlist, &mut sink) {
        WriteEnd::Written => Ok(sink.bytes() == bytes),
        WriteEnd::WriteFault if !bytes.starts_with(sink.bytes()) => Ok(false),
        _ => Err(NoMemory),
    }
}
