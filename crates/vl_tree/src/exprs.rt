//! Expressions, selects and the left sides of assignments (IEEE 1364-2005, A.8).
use crate::operators::{BinOp, Sign, UnOp};
use sqlite_items::{Boxed, Items};

/// An expression. Parentheses make no node.
#[cycle(expr)]
#[derive(Drop)]
pub enum Expr {
    /// `test ? first : second`
    Choice {
        at: u32,
        test: Boxed<Expr>,
        first: Boxed<Expr>,
        second: Boxed<Expr>,
    },
    Binary {
        at: u32,
        op: BinOp,
        left: Boxed<Expr>,
        right: Boxed<Expr>,
    },
    Unary {
        at: u32,
        op: UnOp,
        operand: Boxed<Expr>,
    },
    /// A number with a base, behind its size if it has one.
    Based {
        at: u32,
        size: Option<u32>,
        number: u32,
    },
    Decimal {
        at: u32,
        number: u32,
    },
    Name {
        at: u32,
        name: u32,
        selects: Items<Select>,
    },
    Call {
        at: u32,
        name: u32,
        args: Items<Expr>,
    },
    /// `$signed(value)` or `$unsigned(value)`
    Sign {
        at: u32,
        sign: Sign,
        value: Boxed<Expr>,
    },
    /// `{part, part}`
    Concat {
        at: u32,
        parts: Items<Expr>,
    },
    /// `{count{part, part}}`
    Replicate {
        at: u32,
        count: Boxed<Expr>,
        parts: Items<Expr>,
    },
}

/// A select behind a name.
#[cycle(expr)]
#[derive(Drop)]
pub enum Select {
    /// `[index]`
    Index { at: u32, index: Expr },
    /// `[msb:lsb]`
    Part { at: u32, msb: Expr, lsb: Expr },
    /// `[base +: width]`
    Up { at: u32, base: Expr, width: Expr },
    /// `[base -: width]`
    Down { at: u32, base: Expr, width: Expr },
}

/// The left side of an assignment.
#[derive(Drop)]
pub enum Lvalue {
    Name {
        at: u32,
        name: u32,
        selects: Items<Select>,
    },
    /// `{part, part}`
    Concat {
        at: u32,
        parts: Items<Lvalue>,
    },
}
