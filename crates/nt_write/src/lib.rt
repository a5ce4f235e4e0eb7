//! The writer of design texts.
#![tactic(auto)]

ghost use Rattle.std.specs.Prelude.{◌≡◌, ◌≢◌, ◌≤◌};
ghost use Rattle.xt_base.specs.Outside.{HasFault, AppendsPrefix, appended};
ghost use Rattle.nt_core.specs.Text.{text_of};

mod declarations;
mod forms;
mod head;
mod outputs;
mod pen;
mod text;
mod ticks;
mod words;

use nt_core::Netlist;
use pen::{Pen, ROOM};
use std::alloc::Global;
use xt_base::Sink;

/// How a write ended.
#[derive(Clone, Copy, Debug, PartialEq, Eq)]
pub enum WriteEnd {
    Written,
    WriteFault,
    Memory,
}

/// Writes the text of a design: exactly one text for each netlist.
///
/// All the memory that it takes, a buffer of 65,536 bytes, is taken before the first piece, so that without memory
/// nothing is written. Where a fault is counted a prefix of the text has been written.
pub fn write<S: Sink>(alloc: Global, netlist: &Netlist, out: &mut S) -> WriteEnd
    ensures never_falls { S.faults out.old ≤ S.faults out.new }
    ensures written { result ≡ WriteEnd.Written → S.written out.new ≡ appended (S.written out.old) (text_of netlist.now) }
    ensures cut { result ≡ WriteEnd.WriteFault → AppendsPrefix (S.written out.old) (text_of netlist.now) (S.written out.new) }
    ensures fault { result ≡ WriteEnd.WriteFault → HasFault (S.faults out.old) (S.faults out.new) }
    ensures memory { result ≡ WriteEnd.Memory → S.written out.new ≡ S.written out.old }
    ensures no_fault { result ≢ WriteEnd.WriteFault → S.faults out.new ≡ S.faults out.old }
{
    let Ok(mut buffer) = Vec::with_capacity(alloc, ROOM) else {
        return WriteEnd::Memory;
    };
    let mut pen = Pen::new(&mut buffer, out);
    pen.text(netlist);
    pen.flush();
    if pen.has_failed() {
        WriteEnd::WriteFault
    } else {
        WriteEnd::Written
    }
}
