//! Statements (IEEE 1364-2005, A.6).
use crate::exprs::{Expr, Lvalue};
use crate::routines::Local;
use sqlite_items::{Boxed, Items};

/// A statement.
#[cycle(statement)]
#[derive(Drop)]
pub enum Stmt {
    /// `;`
    Null {
        at: u32,
    },
    /// `target = value;`
    Blocking {
        at: u32,
        target: Boxed<Lvalue>,
        value: Boxed<Expr>,
    },
    /// `target <= value;`
    Nonblocking {
        at: u32,
        target: Boxed<Lvalue>,
        value: Boxed<Expr>,
    },
    /// `if (test) first else second`
    If {
        at: u32,
        test: Boxed<Expr>,
        first: Boxed<Stmt>,
        second: Option<Boxed<Stmt>>,
    },
    /// `case (on) items endcase`
    Case {
        at: u32,
        on: Boxed<Expr>,
        items: Items<Citem>,
    },
    /// `for (name = first; test; again = next) body`; both names are the same.
    For {
        at: u32,
        name: u32,
        first: Boxed<Expr>,
        test: Boxed<Expr>,
        again: u32,
        next: Boxed<Expr>,
        body: Boxed<Stmt>,
    },
    /// `while (test) body`
    While {
        at: u32,
        test: Boxed<Expr>,
        body: Boxed<Stmt>,
    },
    /// `repeat (count) body`
    Repeat {
        at: u32,
        count: Boxed<Expr>,
        body: Boxed<Stmt>,
    },
    /// `forever body`
    Forever {
        at: u32,
        body: Boxed<Stmt>,
    },
    /// `begin body end`, with a scope if it is named
    Block {
        at: u32,
        scope: Option<Boxed<Scope>>,
        body: Items<Stmt>,
    },
    /// `@(edge clock) body`
    Wait {
        at: u32,
        edge: Edge,
        clock: u32,
        body: Boxed<Stmt>,
    },
    /// `name;` or `name(args);`
    Enable {
        at: u32,
        name: u32,
        args: Option<Items<Expr>>,
    },
    /// `disable name.name;`
    Disable {
        at: u32,
        names: Items<u32>,
    },
}

/// An arm of a `case`.
#[cycle(statement)]
#[derive(Drop)]
pub enum Citem {
    /// `label, label: body`
    Labels {
        at: u32,
        labels: Items<Expr>,
        body: Stmt,
    },
    /// `default body`, with or without a colon
    Default {
        at: u32,
        colon: bool,
        body: Stmt,
    },
}

/// `: name` behind `begin`, and the block's own variables.
#[derive(Drop)]
pub struct Scope {
    pub at: u32,
    pub name: u32,
    pub locals: Items<Local>,
}

/// `posedge` or `negedge`
#[derive(Clone, Copy, Debug, PartialEq, Eq)]
pub enum Edge {
    Posedge,
    Negedge,
}
