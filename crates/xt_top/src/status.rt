//! How a run of the program ends.
ghost use Rattle.std.specs.Prelude.{◌≡◌};
ghost use Rattle.xt_top.specs.Status.{number_of};

/// How a run of the program ends.
#[derive(Clone, Copy, Debug, PartialEq, Eq)]
pub enum Status {
    /// All that the words ask for was done, and the whole text was written.
    Done,
    /// Memory ran out.
    Memory,
    /// The words are no command.
    Usage,
    /// The source breaks a rule.
    Refused,
    /// The design isn't well formed.
    BadDesign,
    /// The record isn't well formed.
    BadRecord,
    /// Two traces differ.
    Differs,
    /// A file isn't there or can't be read.
    ReadFault,
    /// A text or a note couldn't be written.
    WriteFault,
}

impl Status {
    /// The number with which the process ends, from 0 to 8.
    pub fn number(self) -> u8
        ensures { result ≡ number_of self }
    {
        self as u8
    }
}
