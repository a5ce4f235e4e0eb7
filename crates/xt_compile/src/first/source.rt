//! A source of the form that is read today: a module with its ports and one process of waits and assignments.
ghost use Rattle.std.specs.Prelude.{◌≡◌, bytes_eq};
ghost use Rattle.xt_compile.specs.first.Tree.{found};
ghost use Rattle.xt_compile.specs.first.Source.{is_wait, waits};

use sqlite_items::Items;
use xt_base::{Name, Place};
use xt_bits::Bits;

/// A module with one `always` process. The clock is the first of its ports; the other inputs and the outputs stand in
/// port order. The place of a name is that of its token, and the place of anything else is that of its first token.
#[derive(Debug, Drop)]
pub struct Source {
    /// The place of the module's name.
    pub head: Place,
    pub clock: Name,
    /// The place of the clock's name.
    pub clock_place: Place,
    pub inputs: Items<Port>,
    pub outputs: Items<Port>,
    /// The place of the process.
    pub process: Place,
    /// The place of the block that is its statement.
    pub block: Place,
    /// The statements of the process, in order.
    pub steps: Items<Step>,
}

/// A port other than the clock.
#[derive(Debug, Drop)]
pub struct Port {
    pub name: Name,
    /// In bits.
    pub width: u32,
    /// The place of the name.
    pub place: Place,
}

/// A statement of the process.
#[derive(Debug, Drop)]
pub enum Step {
    /// A wait for the clock's rising edge.
    Wait {
        at: Place,
    },
    /// A nonblocking assignment to an output, by its place among the outputs, of a sum as wide as it.
    Assign {
        at: Place,
        output: usize,
        value: Sum,
    },
}

/// A sum of one or more terms of one width, grouped to the left.
#[derive(Debug, Drop)]
pub struct Sum {
    /// In bits.
    pub width: u32,
    pub first: Term,
    pub more: Items<Term>,
}

/// A term of a sum.
#[derive(Clone, Copy, Debug, PartialEq, Eq)]
pub enum Term {
    /// An input, by its place among the inputs.
    Input(usize),
    /// An output, by its place among the outputs.
    Output(usize),
    Number(Bits),
}

impl Source {
    /// Whether the process waits.
    pub fn waits(&self) -> bool
        ensures { result ≡ waits self.now }
    {
        self.steps.as_slice().iter().any(|step| step.is_wait())
    }
}

impl Step {
    /// Whether the statement is a wait.
    pub fn is_wait(&self) -> bool
        ensures { result ≡ is_wait self.now }
    {
        matches!(self, Step::Wait { .. })
    }
}

impl Port {
    /// Whether the port has the name.
    pub fn is_named(&self, name: &[u8]) -> bool
        ensures { result ≡ bytes_eq self.now.name name.now }
    {
        self.name.as_str().as_bytes() == name
    }
}

/// The place and the width in bits of the port of that name.
pub fn find(ports: &[Port], name: &[u8]) -> Option<(usize, u32)>
    ensures { result ≡ found name.now ports.now }
{
    for (place, port) in ports.iter().enumerate() {
        if port.is_named(name) {
            return Some((place, port.width));
        }
    }
    None
}
