//! The whole text.
ghost use Rattle.std.specs.Prelude.{◌≡◌};
ghost use Rattle.nt_core.specs.Text.{text_of};

use crate::pen::Pen;
use nt_core::Netlist;
use xt_base::Sink;

impl<'a, S: Sink> Pen<'a, S> {
    ghost use Rattle.nt_write.specs.Pen.{Takes};

    /// Takes the text of a design.
    pub fn text(&mut self, netlist: &Netlist)
        ensures same { self.new.out.ghost_name ≡ self.old.out.ghost_name }
        ensures takes { Takes S.written S.faults self.old self.new (text_of netlist.now) }
    {
        self.head(netlist);
        self.inputs(netlist);
        self.outputs(netlist);
        self.declarations(netlist);
        self.assigns(netlist);
        self.clock(netlist);
    }
}
