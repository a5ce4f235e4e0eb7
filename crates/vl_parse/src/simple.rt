//! What statements begin with: all up to the first statement inside, or the whole of one in which none stands.
ghost use Rattle.std.specs.Prelude.{◌≡◌, ◌<◌, ◌^◌, ◌-◌, ◌+◌, OnOk};
ghost use Rattle.vl_expr.specs.Reading.{Gives};
ghost use Rattle.vl_parse.specs.Parts.{maybe_of};
ghost use Rattle.vl_parse.specs.declared.classes.Opening.TheVariants as opening;
ghost use Rattle.vl_parse.specs.declared.simple.Head.TheVariants as head;
ghost use Rattle.vl_parse.specs.declared.simple.Before.TheVariants as before;
ghost use Rattle.vl_parse.specs.Declarations.{args_at, paren_of};
ghost use Rattle.vl_parse.specs.Statements.{opens_args, enable_of, disable_of, scope_of, opens_scope, clock_of};
ghost use Rattle.vl_parse.specs.inner.Steps.{made_of};
ghost use Rattle.vl_parse.specs.inner.Heads.{right_of, assigned, assign_head, named_head, clauses_of, next_of, for_head, head_by, head_of};

use crate::classes::{Opening, edge_at, opening_at};
use crate::declarations::{args, paren};
use crate::input::Input;
use crate::lists::{Parse, ended, many, separated};
use crate::part::{Part, absent, present};
use sqlite_items::{Boxed, Items};
use vl_expr::ParseError;
use vl_tree::{Edge, Expr, Lvalue, Scope, Stmt, Terminal};

/// What stands before the statements inside a statement, or a statement in which none stands.
#[derive(Drop)]
pub enum Head {
    Whole(Stmt),
    If(Boxed<Expr>),
    Case(Boxed<Expr>),
    Block(Option<Boxed<Scope>>),
    Before(Before),
}

/// What stands before the one statement inside.
#[derive(Drop)]
pub enum Before {
    For(Header),
    While(Boxed<Expr>),
    Repeat(Boxed<Expr>),
    Forever,
    /// The edge, and the place of the clock's name.
    Wait { edge: Edge, clock: u32 },
}

/// What stands between `for` and its statement, behind the first name.
#[derive(Drop)]
pub struct Header {
    pub first: Boxed<Expr>,
    pub test: Boxed<Expr>,
    pub again: u32,
    pub next: Boxed<Expr>,
}

/// What stands before the statement of a case item.
#[derive(Drop)]
pub enum Label {
    Default { colon: bool },
    Exprs(Items<Expr>),
}

/// What stands behind the left side of an assignment.
#[derive(Drop)]
pub enum Right {
    Blocking(Boxed<Expr>),
    Nonblocking(Boxed<Expr>),
}

/// `"=" expr ";"` or `"<=" expr ";"`
fn right_side(input: &Input<'_>, depth: u32, at: u32) -> Result<Part<Right>, ParseError>
    ensures { Gives result (right_of input.now.terminals depth at) }
{
    if input.is_at(at, Terminal::Equals) {
        let value = ended(input, Terminal::Semicolon, depth, at + 1)?;
        return Ok(Part {
            tree: Right::Blocking(value.tree),
            end: value.end,
        });
    }
    input.expect(at, Terminal::LessEqual)?;
    let value = ended(input, Terminal::Semicolon, depth, at + 1)?;
    Ok(Part {
        tree: Right::Nonblocking(value.tree),
        end: value.end,
    })
}

fn assigned(at: u32, target: Boxed<Lvalue>, right: Right) -> Stmt
    ensures { result ≡ assigned at target right }
{
    match right {
        Right::Blocking(value) => Stmt::Blocking { at, target, value },
        Right::Nonblocking(value) => Stmt::Nonblocking { at, target, value },
    }
}

/// An assignment.
fn assign(input: &Input<'_>, depth: u32, at: u32) -> Result<Part<Head>, ParseError>
    ensures { Gives result (assign_head input.now.terminals depth at) }
{
    let target = Boxed::<Lvalue>::parse(input, depth, at)?;
    let right = right_side(input, depth, target.end)?;
    Ok(Part {
        tree: Head::Whole(assigned(at, target.tree, right.tree)),
        end: right.end,
    })
}

/// The arguments of an enable, if there are any.
fn enable_args(
    input: &Input<'_>,
    depth: u32,
    at: u32,
) -> Result<Part<Option<Items<Expr>>>, ParseError>
    ensures { Gives result (maybe_of input.now.terminals opens_args (args_at input.now.terminals depth) at) }
{
    if input.is_at(at, Terminal::OpenParen) {
        let args = args(input, depth, at)?;
        Ok(present(args))
    } else {
        Ok(absent(at))
    }
}

/// An enable of a task.
fn enable(input: &Input<'_>, depth: u32, at: u32) -> Result<Part<Head>, ParseError>
    requires { at < 2 ^ 32 - 2 }
    ensures { Gives result (made_of head.Whole (enable_of input.now.terminals depth at)) }
{
    let args = enable_args(input, depth, at + 1)?;
    input.expect(args.end, Terminal::Semicolon)?;
    Ok(Part {
        tree: Head::Whole(Stmt::Enable {
            at,
            name: at,
            args: args.tree,
        }),
        end: args.end + 1,
    })
}

/// A statement that begins with a name.
fn named(input: &Input<'_>, depth: u32, at: u32) -> Result<Part<Head>, ParseError>
    requires { at < 2 ^ 32 - 2 }
    ensures { Gives result (named_head input.now.terminals depth at) }
{
    let enables = input.is_at(at + 1, Terminal::OpenParen)
        || input.is_at(at + 1, Terminal::Semicolon);
    if enables {
        enable(input, depth, at)
    } else {
        assign(input, depth, at)
    }
}

/// The end of a block or task.
fn disable(input: &Input<'_>, depth: u32, at: u32) -> Result<Part<Head>, ParseError>
    requires { at < 2 ^ 32 - 2 }
    ensures { Gives result (made_of head.Whole (disable_of input.now.terminals at)) }
{
    let path = separated(input, Terminal::Dot, depth, at + 1)?;
    input.expect(path.end, Terminal::Semicolon)?;
    Ok(Part {
        tree: Head::Whole(Stmt::Disable {
            at,
            names: path.tree,
        }),
        end: path.end + 1,
    })
}

/// `expr ";" expr ";"`
fn clauses(
    input: &Input<'_>,
    depth: u32,
    at: u32,
) -> Result<Part<(Boxed<Expr>, Boxed<Expr>)>, ParseError>
    ensures { Gives result (clauses_of input.now.terminals depth at) }
{
    let first = ended(input, Terminal::Semicolon, depth, at)?;
    let second = ended(input, Terminal::Semicolon, depth, first.end)?;
    Ok(Part {
        tree: (first.tree, second.tree),
        end: second.end,
    })
}

/// The second assignment of a header; its name is spelled as the one at `at`.
fn next(input: &Input<'_>, depth: u32, at: u32, again: u32) -> Result<Part<Boxed<Expr>>, ParseError>
    ensures { Gives result (next_of input.now.terminals input.now.names depth at again) }
{
    input.name(again)?;
    if !input.same_name(at, again) {
        return Err(ParseError::NoTree { at: again });
    }
    input.expect(again + 1, Terminal::Equals)?;
    ended(input, Terminal::CloseParen, depth, again + 2)
}

/// The `for` at a place, up to its statement; both names are the same.
fn for_head(input: &Input<'_>, depth: u32, at: u32) -> Result<Part<Head>, ParseError>
    requires { at < 2 ^ 32 - 2 }
    ensures { Gives result (for_head input.now.terminals input.now.names depth at) }
{
    input.expect(at + 1, Terminal::OpenParen)?;
    input.name(at + 2)?;
    input.expect(at + 3, Terminal::Equals)?;
    let clauses = clauses(input, depth, at + 4)?;
    let next = next(input, depth, at + 2, clauses.end)?;
    let (first, test) = clauses.tree;
    let header = Header {
        first,
        test,
        again: clauses.end,
        next: next.tree,
    };
    Ok(Part {
        tree: Head::Before(Before::For(header)),
        end: next.end,
    })
}

impl Parse for Scope {
    ghost reading = { λ i n at. scope_of i.terminals n at };

    fn parse(input: &Input<'_>, depth: u32, at: u32) -> Result<Part<Scope>, ParseError> {
        input.expect(at, Terminal::Colon)?;
        input.name(at + 1)?;
        let locals = many(input, depth, at + 2)?;
        Ok(Part {
            tree: Scope {
                at,
                name: at + 1,
                locals: locals.tree,
            },
            end: locals.end,
        })
    }
}

/// What stands before the statements of a block: its name and variables, if it has a name.
fn block(input: &Input<'_>, depth: u32, at: u32) -> Result<Part<Head>, ParseError>
    requires { at < 2 ^ 32 - 2 }
    ensures { Gives result
        (made_of head.Block (maybe_of input.now.terminals opens_scope (scope_of input.now.terminals depth) (at + 1))) }
{
    if !input.is_at(at + 1, Terminal::Colon) {
        return Ok(Part {
            tree: Head::Block(None),
            end: at + 1,
        });
    }
    let scope = Boxed::<Scope>::parse(input, depth, at + 1)?;
    Ok(Part {
        tree: Head::Block(Some(scope.tree)),
        end: scope.end,
    })
}

/// The edge of a clock, in parentheses with the clock's name, behind the `@` at a place; these are four tokens.
fn clock(input: &Input<'_>, at: u32) -> Result<Edge, ParseError>
    requires { at < 2 ^ 32 - 2 }
    ensures exact { Gives result (clock_of input.now.terminals at) }
    ensures within { OnOk result (at + 4 < 2 ^ 32 - 2) }
{
    input.expect(at + 1, Terminal::OpenParen)?;
    let Some(edge) = edge_at(input, at + 2) else {
        return Err(ParseError::NoTree { at: at + 2 });
    };
    input.name(at + 3)?;
    input.expect(at + 4, Terminal::CloseParen)?;
    Ok(edge)
}

fn if_head(input: &Input<'_>, depth: u32, at: u32) -> Result<Part<Head>, ParseError>
    requires { at < 2 ^ 32 - 2 }
    ensures { Gives result (made_of head.If (paren_of input.now.terminals depth at)) }
{
    let test = paren(input, depth, at)?;
    Ok(Part {
        tree: Head::If(test.tree),
        end: test.end,
    })
}

fn case_head(input: &Input<'_>, depth: u32, at: u32) -> Result<Part<Head>, ParseError>
    requires { at < 2 ^ 32 - 2 }
    ensures { Gives result (made_of head.Case (paren_of input.now.terminals depth at)) }
{
    let on = paren(input, depth, at)?;
    Ok(Part {
        tree: Head::Case(on.tree),
        end: on.end,
    })
}

fn while_head(input: &Input<'_>, depth: u32, at: u32) -> Result<Part<Head>, ParseError>
    requires { at < 2 ^ 32 - 2 }
    ensures { Gives result (made_of (λ e. head.Before (before.While e)) (paren_of input.now.terminals depth at)) }
{
    let test = paren(input, depth, at)?;
    Ok(Part {
        tree: Head::Before(Before::While(test.tree)),
        end: test.end,
    })
}

fn repeat_head(input: &Input<'_>, depth: u32, at: u32) -> Result<Part<Head>, ParseError>
    requires { at < 2 ^ 32 - 2 }
    ensures { Gives result (made_of (λ e. head.Before (before.Repeat e)) (paren_of input.now.terminals depth at)) }
{
    let count = paren(input, depth, at)?;
    Ok(Part {
        tree: Head::Before(Before::Repeat(count.tree)),
        end: count.end,
    })
}

fn wait(input: &Input<'_>, depth: u32, at: u32) -> Result<Part<Head>, ParseError>
    requires { at < 2 ^ 32 - 2 }
    ensures { Gives result (head_by input.now.terminals input.now.names depth at opening.Wait) }
{
    let edge = clock(input, at)?;
    Ok(Part {
        tree: Head::Before(Before::Wait {
            edge,
            clock: at + 3,
        }),
        end: at + 5,
    })
}

/// What the statement at a place begins with, up to the first statement in it.
pub fn head_at(input: &Input<'_>, depth: u32, at: u32) -> Result<Part<Head>, ParseError>
    ensures exact { Gives result (head_of input.now.terminals input.now.names depth at) }
    ensures within { OnOk result (at < 2 ^ 32 - 2) }
{
    match opening_at(input, at) {
        Opening::Null => Ok(Part {
            tree: Head::Whole(Stmt::Null { at }),
            end: at + 1,
        }),
        Opening::Assign => assign(input, depth, at),
        Opening::Name => named(input, depth, at),
        Opening::If => if_head(input, depth, at),
        Opening::Case => case_head(input, depth, at),
        Opening::For => for_head(input, depth, at),
        Opening::While => while_head(input, depth, at),
        Opening::Repeat => repeat_head(input, depth, at),
        Opening::Forever => Ok(Part {
            tree: Head::Before(Before::Forever),
            end: at + 1,
        }),
        Opening::Block => block(input, depth, at),
        Opening::Wait => wait(input, depth, at),
        Opening::Disable => disable(input, depth, at),
        Opening::Nothing => Err(ParseError::NoTree { at }),
    }
}
