//! Modules, their headers and their items (IEEE 1364-2005, A.1 to A.4).
use crate::exprs::Expr;
use crate::routines::{Function, Import, Task};
use crate::statements::Stmt;
use sqlite_items::Items;

/// A source: its modules.
#[derive(Drop)]
pub struct Tree {
    pub modules: Items<Module>,
}

/// `module name #(params) (ports); items endmodule`
#[derive(Drop)]
pub struct Module {
    pub at: u32,
    pub name: u32,
    pub params: Option<Items<Pdecl>>,
    pub ports: Option<Items<Port>>,
    pub items: Items<Item>,
}

/// A parameter in a module's header. One without a type takes the one before it.
#[derive(Drop)]
pub struct Pdecl {
    pub at: u32,
    pub ptype: Option<Ptype>,
    pub name: u32,
    pub value: Expr,
}

/// The type of a parameter or of what a function returns.
#[derive(Drop)]
pub enum Ptype {
    /// It may be empty; `at` is then the token that follows.
    Vector {
        at: u32,
        signed: bool,
        range: Option<Range>,
    },
    Integer {
        at: u32,
    },
}

/// A port. One without leading words takes those before it.
#[derive(Drop)]
pub struct Port {
    pub at: u32,
    pub dir: Option<Dir>,
    pub name: u32,
    pub value: Option<Expr>,
}

/// The leading words of a port.
#[derive(Drop)]
pub enum Dir {
    Net {
        at: u32,
        direction: Direction,
        wire: bool,
        signed: bool,
        range: Option<Range>,
    },
    /// `output reg`
    Reg {
        at: u32,
        signed: bool,
        range: Option<Range>,
    },
}

/// `input` or `output`
#[derive(Clone, Copy, Debug, PartialEq, Eq)]
pub enum Direction {
    Input,
    Output,
}

/// `[msb:lsb]`
#[derive(Drop)]
pub struct Range {
    pub at: u32,
    pub msb: Expr,
    pub lsb: Expr,
}

/// An item of a module.
#[derive(Drop)]
pub enum Item {
    Params {
        at: u32,
        word: ParamWord,
        ptype: Ptype,
        values: Items<Binding>,
    },
    Wires {
        at: u32,
        signed: bool,
        range: Option<Range>,
        names: Items<Declared>,
    },
    Regs {
        at: u32,
        signed: bool,
        range: Option<Range>,
        names: Items<Rname>,
    },
    Integers {
        at: u32,
        names: Items<Declared>,
    },
    Assigns {
        at: u32,
        values: Items<Binding>,
    },
    Always {
        at: u32,
        body: Stmt,
    },
    Initial {
        at: u32,
        body: Stmt,
    },
    Task {
        at: u32,
        task: Task,
    },
    Function {
        at: u32,
        function: Function,
    },
    Import {
        at: u32,
        import: Import,
    },
    Instances {
        at: u32,
        module: u32,
        params: Option<Conns>,
        instances: Items<Instance>,
    },
}

/// `parameter` or `localparam`
#[derive(Clone, Copy, Debug, PartialEq, Eq)]
pub enum ParamWord {
    Parameter,
    Localparam,
}

/// `name = value`
#[derive(Drop)]
pub struct Binding {
    pub at: u32,
    pub name: u32,
    pub value: Expr,
}

/// `name` or `name = value`
#[derive(Drop)]
pub struct Declared {
    pub at: u32,
    pub name: u32,
    pub value: Option<Expr>,
}

/// A name in a `reg` declaration.
#[derive(Drop)]
pub enum Rname {
    /// `name` or `name = value`
    Variable {
        at: u32,
        name: u32,
        value: Option<Expr>,
    },
    /// `name [first:last]`
    Memory {
        at: u32,
        name: u32,
        range: Range,
    },
}

/// `name(conns)`
#[derive(Drop)]
pub struct Instance {
    pub at: u32,
    pub name: u32,
    pub conns: Option<Conns>,
}

/// The connections of an instance, or its parameters.
#[derive(Drop)]
pub enum Conns {
    Ordered { at: u32, exprs: Items<Expr> },
    Named { at: u32, named: Items<Named> },
}

/// `.name(value)`
#[derive(Drop)]
pub struct Named {
    pub at: u32,
    pub name: u32,
    pub value: Option<Expr>,
}
