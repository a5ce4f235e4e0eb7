//! The first token of a part.
ghost use Rattle.std.specs.Prelude.{◌≡◌};
ghost use Rattle.vl_tree.specs.Begins.{expr_at, select_at, lvalue_at, stmt_at, item_at};

use crate::exprs::{Expr, Lvalue, Select};
use crate::modules::Item;
use crate::statements::Stmt;

impl Expr {
    /// The number of the first token. Parentheses make no node: `(a) + b` begins with a parenthesis, `(a)` with a.
    pub fn at(&self) -> u32
        ensures { result ≡ expr_at self.now }
    {
        match self {
            Expr::Choice { at, .. }
            | Expr::Binary { at, .. }
            | Expr::Unary { at, .. }
            | Expr::Based { at, .. }
            | Expr::Decimal { at, .. }
            | Expr::Name { at, .. }
            | Expr::Call { at, .. }
            | Expr::Sign { at, .. }
            | Expr::Concat { at, .. }
            | Expr::Replicate { at, .. } => *at,
        }
    }
}

impl Select {
    /// The number of the bracket.
    pub fn at(&self) -> u32
        ensures { result ≡ select_at self.now }
    {
        match self {
            Select::Index { at, .. }
            | Select::Part { at, .. }
            | Select::Up { at, .. }
            | Select::Down { at, .. } => *at,
        }
    }
}

impl Lvalue {
    /// The number of the first token.
    pub fn at(&self) -> u32
        ensures { result ≡ lvalue_at self.now }
    {
        match self {
            Lvalue::Name { at, .. } | Lvalue::Concat { at, .. } => *at,
        }
    }
}

impl Stmt {
    /// The number of the first token.
    pub fn at(&self) -> u32
        ensures { result ≡ stmt_at self.now }
    {
        match self {
            Stmt::Null { at }
            | Stmt::Blocking { at, .. }
            | Stmt::Nonblocking { at, .. }
            | Stmt::If { at, .. }
            | Stmt::Case { at, .. }
            | Stmt::For { at, .. }
            | Stmt::While { at, .. }
            | Stmt::Repeat { at, .. }
            | Stmt::Forever { at, .. }
            | Stmt::Block { at, .. }
            | Stmt::Wait { at, .. }
            | Stmt::Enable { at, .. }
            | Stmt::Disable { at, .. } => *at,
        }
    }
}

impl Item {
    /// The number of the first token.
    pub fn at(&self) -> u32
        ensures { result ≡ item_at self.now }
    {
        match self {
            Item::Params { at, .. }
            | Item::Wires { at, .. }
            | Item::Regs { at, .. }
            | Item::Integers { at, .. }
            | Item::Assigns { at, .. }
            | Item::Always { at, .. }
            | Item::Initial { at, .. }
            | Item::Task { at, .. }
            | Item::Function { at, .. }
            | Item::Import { at, .. }
            | Item::Instances { at, .. } => *at,
        }
    }
}
