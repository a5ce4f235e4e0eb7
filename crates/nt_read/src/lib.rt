//! The reader of design texts.
#![tactic(auto)]

ghost use Rattle.std.specs.Prelude.{◌≡◌, ◌≢◌, IfOk, MatchResult, Err};
ghost use Rattle.nt_core.specs.Conditions.{IsNetlist};
ghost use Rattle.nt_core.specs.Parts.{Parts};
ghost use Rattle.nt_core.specs.Text.{text_of};
ghost use Rattle.nt_read.specs.declared.DesignFault.TheVariants as faults;

mod forms;
mod memory;
mod names;
mod netlist;
mod sketch;
mod words;

use nt_core::Netlist;
use std::alloc::Global;
use thiserror::Error;

/// Why no netlist was read.
#[derive(Clone, Copy, Debug, PartialEq, Eq, Error)]
pub enum DesignFault {
    /// No netlist has the bytes as its text.
    #[error("not the text of a design")]
    BadDesign,
    /// Memory ran out.
    #[error("out of memory")]
    Memory,
}

/// Reads the text of a design: the netlist whose text the bytes are, if there is one.
///
/// Its time is linear in the length of the text.
pub fn read(alloc: Global, bytes: &[u8]) -> Result<Netlist, DesignFault>
    ensures ok { IfOk result (λ n. text_of n ≡ bytes.now) }
    ensures bad { result ≡ Err faults.BadDesign → (n : Parts) → IsNetlist n → text_of n ≢ bytes.now }

    // What is written is read again.
    ensures only { (n : Parts) → IsNetlist n → text_of n ≡ bytes.now → MatchResult result (λ m. m ≡ n) (λ e. e ≡ faults.Memory) }
{
    match netlist::netlist(alloc, bytes) {
        Ok(Some(netlist)) => Ok(netlist),
        Ok(None) => Err(DesignFault::BadDesign),
        Err(_) => Err(DesignFault::Memory),
    }
}

/// No two netlists have one text.
pub fn one_netlist()
    ensures { (m n : Parts) → IsNetlist m → IsNetlist n → text_of m ≡ text_of n → m ≡ n }
{}
