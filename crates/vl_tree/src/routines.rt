//! Tasks, functions and imports (IEEE 1364-2005, A.2.6 and A.2.7; imports after IEEE 1800-2005, A.2.6).
use crate::modules::{Direction, Ptype, Range};
use crate::operators::Sign;
use crate::statements::Stmt;
use sqlite_items::Items;

/// `task name args body endtask`
#[derive(Drop)]
pub struct Task {
    pub at: u32,
    pub name: u32,
    pub args: Args,
    pub body: Stmt,
}

/// `function ptype name args body endfunction`
#[derive(Drop)]
pub struct Function {
    pub at: u32,
    pub ptype: Ptype,
    pub name: u32,
    pub args: Args,
    pub body: Stmt,
}

/// The formals and local variables of a task or function.
#[derive(Drop)]
pub enum Args {
    /// `(formal, formal); locals`
    Listed {
        at: u32,
        formals: Items<Formal>,
        locals: Items<Local>,
    },
    /// `;` and declarations
    Declared {
        at: u32,
        args: Items<Arg>,
    },
}

/// A declaration behind `task name;` or `function ptype name;`.
#[derive(Drop)]
pub enum Arg {
    Formals {
        at: u32,
        fdir: Fdir,
        names: Items<u32>,
    },
    Local {
        at: u32,
        local: Local,
    },
}

/// A formal in parentheses. One without leading words takes those before it.
#[derive(Drop)]
pub struct Formal {
    pub at: u32,
    pub fdir: Option<Fdir>,
    pub name: u32,
}

/// The leading words of a formal.
#[derive(Drop)]
pub enum Fdir {
    Vector {
        at: u32,
        direction: Direction,
        reg: bool,
        signed: bool,
        range: Option<Range>,
    },
    Integer {
        at: u32,
        direction: Direction,
    },
}

/// Local variables.
#[derive(Drop)]
pub enum Local {
    Reg {
        at: u32,
        signed: bool,
        range: Option<Range>,
        names: Items<u32>,
    },
    Integer {
        at: u32,
        names: Items<u32>,
    },
}

/// `import "DPI-C" context function rtype name(args);`
#[derive(Drop)]
pub struct Import {
    pub at: u32,
    pub spec: u32,
    pub context: bool,
    pub rtype: Rtype,
    pub name: u32,
    pub args: Items<Iarg>,
}

/// The type of what an import returns.
#[derive(Drop)]
pub enum Rtype {
    Void { at: u32 },
    Bit { at: u32 },
    Number { at: u32, itype: Itype },
}

/// An integer type of an import.
#[derive(Drop)]
pub struct Itype {
    pub at: u32,
    pub word: IntWord,
    pub sign: Option<Sign>,
}

/// `byte`, `shortint`, `int` or `longint`
#[derive(Clone, Copy, Debug, PartialEq, Eq)]
pub enum IntWord {
    Byte,
    Shortint,
    Int,
    Longint,
}

/// An argument of an import.
#[derive(Drop)]
pub enum Iarg {
    Bits {
        at: u32,
        direction: Direction,
        range: Option<Range>,
        name: u32,
    },
    Number {
        at: u32,
        direction: Direction,
        itype: Itype,
        name: u32,
    },
}
