//! Statements with typed expressions.
use crate::expressions::{TExpr, Target};
use sqlite_items::{Boxed, Items};
use xt_base::Place;

/// A statement. `at` is the place of its first token.
#[cycle(statement)]
#[derive(Debug, Drop)]
pub enum Stmt {
    Null,
    /// A block from `begin` to `end`, with its mark where it has a name; `@(edge) s` is one of the wait and s.
    Block {
        at: Place,
        mark: Option<u32>,
        body: Items<Stmt>,
    },
    /// An assignment: nonblocking where it is held, else blocking.
    Assign {
        at: Place,
        to: Target,
        value: TExpr,
        held: bool,
    },
    If {
        at: Place,
        test: TExpr,
        yes: Boxed<Stmt>,
        no: Boxed<Stmt>,
    },
    /// `case`, whose expression and labels all have one width.
    Case {
        at: Place,
        on: TExpr,
        arms: Items<Arm>,
        other: Boxed<Stmt>,
    },
    /// `for (var = first; test; var = next)`
    For {
        at: Place,
        var: u32,
        first: TExpr,
        test: TExpr,
        next: TExpr,
        body: Boxed<Stmt>,
    },
    While {
        at: Place,
        test: TExpr,
        body: Boxed<Stmt>,
    },
    Repeat {
        at: Place,
        count: TExpr,
        body: Boxed<Stmt>,
    },
    Forever {
        at: Place,
        body: Boxed<Stmt>,
    },
    /// A wait for an edge of the clock.
    Wait {
        at: Place,
        falling: bool,
    },
    /// A task by number, with its inputs, and the targets to which its outputs are copied at the return.
    Enable {
        at: Place,
        task: u32,
        ins: Items<TExpr>,
        outs: Items<Target>,
    },
    Disable {
        at: Place,
        mark: u32,
    },
    /// A call of an import by number.
    Host {
        at: Place,
        import: u32,
        ins: Items<TExpr>,
        result: Option<Target>,
        outs: Items<Target>,
    },
}

/// A case item: it is chosen where one of its labels is equal.
#[cycle(statement)]
#[derive(Debug, Drop)]
pub struct Arm {
    pub labels: Items<TExpr>,
    pub body: Stmt,
}
