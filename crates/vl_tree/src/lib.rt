//! The syntax tree of a source: one type for each production of the grammar, plain data in contracts.
//!
//! A field `at` is the number of the first token of the part, counted from 0. A name, a number or a string is the
//! number of its token.
#![tactic(auto)]

mod argument_list;
mod begins;
mod exprs;
mod laws;
mod modules;
mod operators;
mod routines;
mod statements;
mod terminals;
mod words;

pub use argument_list::{Argument, arguments};
pub use exprs::{Expr, Lvalue, Select};
pub use laws::numbers_are_tokens;
pub use modules::{
    Binding, Conns, Declared, Dir, Direction, Instance, Item, Module, Named, ParamWord, Pdecl,
    Port, Ptype, Range, Rname, Tree,
};
pub use operators::{BinOp, Sign, UnOp};
pub use routines::{
    Arg, Args, Fdir, Formal, Function, Iarg, Import, IntWord, Itype, Local, Rtype, Task,
};
pub use statements::{Citem, Edge, Scope, Stmt};
pub use terminals::Terminal;
