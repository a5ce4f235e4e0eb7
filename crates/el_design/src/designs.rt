//! The flat design. Things are named by their numbers in its lists, from 0.
use crate::expressions::TExpr;
use crate::statements::Stmt;
use sqlite_items::Items;
use xt_base::{Name, Place};
use xt_bits::Bits;

/// A flat design: all instances of a source in one.
#[derive(Debug, Drop)]
pub struct Design {
    pub vars: Items<Var>,
    pub nets: Items<Net>,
    pub tasks: Items<Task>,
    pub funcs: Items<Func>,
    pub imports: Items<Import>,
    pub procs: Items<Proc>,
    /// How many marks there are: each named block and each task has one.
    pub marks: u32,
    /// The nets of the input pins in port order, without the clock.
    pub inputs: Items<u32>,
    /// The output pins in port order.
    pub outputs: Items<Pin>,
    /// The name of the top module.
    pub head: Place,
}

/// A variable, or a memory of several words.
#[derive(Debug, Drop)]
pub struct Var {
    pub name: Name,
    /// In bits; of a memory, the width of a word.
    pub width: u32,
    pub signed: bool,
    /// The number of its lowest bit, as declared.
    pub lsb: u32,
    /// The number of words, or 0 where it is no memory.
    pub words: u32,
    /// The lowest index of a memory, as declared.
    pub low: u32,
    /// The value at the start; a memory's words start at 0.
    pub start: Bits,
    pub place: Place,
}

/// A net, with the expression whose value it takes; without one it is an input pin or 0.
#[derive(Debug, Drop)]
pub struct Net {
    pub name: Name,
    pub width: u32,
    pub signed: bool,
    pub lsb: u32,
    pub value: Option<TExpr>,
    pub place: Place,
}

/// An output pin.
#[derive(Debug, Drop)]
pub struct Pin {
    pub name: Name,
    pub from: Source,
}

/// What an output pin shows: a variable or a net, by number.
#[derive(Clone, Copy, Debug, PartialEq, Eq)]
pub enum Source {
    Var(u32),
    Net(u32),
}

/// A task of an instance, with the variables of its formals.
#[derive(Debug, Drop)]
pub struct Task {
    pub mark: u32,
    pub ins: Items<u32>,
    pub outs: Items<u32>,
    pub body: Stmt,
}

/// A function of an instance, with the variables of its formals, its locals and its result.
#[derive(Debug, Drop)]
pub struct Func {
    pub ins: Items<u32>,
    pub locals: Items<u32>,
    pub result: u32,
    pub body: Stmt,
}

/// A function of the host.
#[derive(Debug, Drop)]
pub struct Import {
    pub name: Name,
    pub ins: Items<Port>,
    pub result: Option<Port>,
    pub outs: Items<Port>,
}

/// The type of an argument or result of an import.
#[derive(Clone, Copy, Debug, PartialEq, Eq)]
pub struct Port {
    pub width: u32,
    pub signed: bool,
}

/// A process: an `always` begins its statement again at its end, an `initial` has then ended.
#[derive(Debug, Drop)]
pub struct Proc {
    pub always: bool,
    pub body: Stmt,
    pub place: Place,
}
