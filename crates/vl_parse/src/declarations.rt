//! Expressions, left sides, ranges, types and local variables.
ghost use Rattle.std.specs.Prelude.{◌≡◌, ◌<◌, ◌^◌, ◌-◌, ◌+◌, ◌*◌, length};
ghost use Rattle.vl_tree.specs.declared.terminals.Terminal.TheVariants as lex;
ghost use Rattle.vl_expr.specs.Reading.{Gives};
ghost use Rattle.vl_parse.specs.Parts.{separated_from};
ghost use Rattle.vl_parse.specs.inner.Parts.{range_by, regs_by, local_by};
ghost use Rattle.vl_parse.specs.Declarations.{expr_at, exprs_at, args_at, selects_at, paren_of, value_of, binding_of, target_of, targets_of, lvalue_of, range_of, opens_range, size_of, ptype_of, names_of, opens_local, integers_of, local_of};

use crate::classes::is;
use crate::input::Input;
use crate::lists::{Begin, Parse, ended, optional, separated};
use crate::part::{Part, added, single};
use sqlite_items::{Boxed, Items};
use vl_expr::{Found, ParseError};
use vl_tree::{Binding, Expr, Local, Lvalue, Ptype, Range, Select, Terminal};

/// `[ "signed" ] [ range ]`
#[derive(Drop)]
pub struct Size {
    pub signed: bool,
    pub range: Option<Range>,
}

fn bare<T: Drop>(found: Found<T>) -> Part<T>
    ensures { result ≡ record { tree = found.tree; end = found.end } }
{
    Part {
        tree: found.tree,
        end: found.end,
    }
}

pub fn expr(input: &Input<'_>, depth: u32, at: u32) -> Result<Part<Expr>, ParseError>
    ensures { Gives result (expr_at input.now.terminals depth at) }
{
    let found = vl_expr::expr_at(input.alloc(), input.terminals(), depth, at)?;
    Ok(bare(found))
}

pub fn exprs(input: &Input<'_>, depth: u32, at: u32) -> Result<Part<Items<Expr>>, ParseError>
    ensures { Gives result (exprs_at input.now.terminals depth at) }
{
    let found = vl_expr::exprs_at(input.alloc(), input.terminals(), depth, at)?;
    Ok(bare(found))
}

/// Expressions in parentheses, or none.
pub fn args(input: &Input<'_>, depth: u32, at: u32) -> Result<Part<Items<Expr>>, ParseError>
    ensures { Gives result (args_at input.now.terminals depth at) }
{
    let found = vl_expr::args_at(input.alloc(), input.terminals(), depth, at)?;
    Ok(bare(found))
}

fn selects(input: &Input<'_>, depth: u32, at: u32) -> Result<Part<Items<Select>>, ParseError>
    ensures { Gives result (selects_at input.now.terminals depth at) }
{
    let found = vl_expr::selects_at(input.alloc(), input.terminals(), depth, at)?;
    Ok(bare(found))
}

impl Parse for Expr {
    ghost reading = { λ i n at. expr_at i.terminals n at };

    fn parse(input: &Input<'_>, depth: u32, at: u32) -> Result<Part<Expr>, ParseError> {
        expr(input, depth, at)
    }
}

/// An expression in parentheses, behind a keyword at this place.
pub fn paren(input: &Input<'_>, depth: u32, at: u32) -> Result<Part<Boxed<Expr>>, ParseError>
    requires { at < 2 ^ 32 - 2 }
    ensures { Gives result (paren_of input.now.terminals depth at) }
{
    input.expect(at + 1, Terminal::OpenParen)?;
    ended(input, Terminal::CloseParen, depth, at + 2)
}

/// `"=" expr`
pub fn value(input: &Input<'_>, depth: u32, at: u32) -> Result<Part<Expr>, ParseError>
    ensures { Gives result (value_of input.now.terminals depth at) }
{
    input.expect(at, Terminal::Equals)?;
    expr(input, depth, at + 1)
}

impl Parse for Binding {
    ghost reading = { λ i n at. binding_of i.terminals n at };

    fn parse(input: &Input<'_>, depth: u32, at: u32) -> Result<Part<Binding>, ParseError> {
        input.name(at)?;
        let value = value(input, depth, at + 1)?;
        Ok(Part {
            tree: Binding {
                at,
                name: at,
                value: value.tree,
            },
            end: value.end,
        })
    }
}

/// A name with selects, on the left of an assignment.
fn target(input: &Input<'_>, depth: u32, at: u32) -> Result<Part<Lvalue>, ParseError>
    ensures { Gives result (target_of input.now.terminals depth at) }
{
    input.name(at)?;
    let selects = selects(input, depth, at + 1)?;
    Ok(Part {
        tree: Lvalue::Name {
            at,
            name: at,
            selects: selects.tree,
        },
        end: selects.end,
    })
}

/// The left side of an assignment.
#[cycle(lvalue)]
fn lvalue(input: &Input<'_>, depth: u32, at: u32) -> Result<Part<Lvalue>, ParseError>
    ensures { Gives result (lvalue_of input.now.terminals depth at) }
{
    if depth == 0 {
        return Err(ParseError::NoTree { at });
    }
    if input.is_at(at, Terminal::OpenBrace) {
        targets(input, depth - 1, at)
    } else {
        target(input, depth - 1, at)
    }
}

/// The other left sides of a list, each behind a comma.
#[cycle(lvalue)]
fn further(
    input: &Input<'_>,
    depth: u32,
    first: Part<Items<Lvalue>>,
) -> Result<Part<Items<Lvalue>>, ParseError>
    ensures { Gives result
        (separated_from input.now.terminals lex.Comma (lvalue_of input.now.terminals depth) (length input.now.terminals) first) }
{
    let mut all = first;
    'turns: for turn in 0..input.len() {
        if !input.is_at(all.end, Terminal::Comma) {
            break;
        }
        let next = lvalue(input, depth, all.end + 1)?;
        all = added(all, next)?;
    }
    Ok(all)
}

/// Left sides in braces.
#[cycle(lvalue)]
fn targets(input: &Input<'_>, depth: u32, at: u32) -> Result<Part<Lvalue>, ParseError>
    requires { at < 2 ^ 32 - 2 }
    ensures { Gives result (targets_of input.now.terminals (lvalue_of input.now.terminals depth) at) }
{
    let first = lvalue(input, depth, at + 1)?;
    let list = single(input.alloc(), first)?;
    let all = further(input, depth, list)?;
    input.expect(all.end, Terminal::CloseBrace)?;
    Ok(Part {
        tree: Lvalue::Concat {
            at,
            parts: all.tree,
        },
        end: all.end + 1,
    })
}

impl Parse for Lvalue {
    ghost reading = { λ i n at. lvalue_of i.terminals n at };

    fn parse(input: &Input<'_>, depth: u32, at: u32) -> Result<Part<Lvalue>, ParseError> {
        lvalue(input, depth, at)
    }
}

fn range(input: &Input<'_>, depth: u32, at: u32) -> Result<Part<Range>, ParseError>
    ensures { Gives result (range_by input.now.terminals depth at) }
{
    input.expect(at, Terminal::OpenBracket)?;
    let msb = ended(input, Terminal::Colon, depth, at + 1)?;
    let lsb = ended(input, Terminal::CloseBracket, depth, msb.end)?;
    Ok(Part {
        tree: Range {
            at,
            msb: msb.tree,
            lsb: lsb.tree,
        },
        end: lsb.end,
    })
}

impl Parse for Range {
    ghost reading = { λ i n at. range_of i.terminals n at };

    #[tactic(auto, using(crate::proofs::Bridges::range_gives))]
    fn parse(input: &Input<'_>, depth: u32, at: u32) -> Result<Part<Range>, ParseError> {
        range(input, depth, at)
    }
}

impl Begin for Range {
    ghost opens = { opens_range };

    fn begins(first: Option<Terminal>) -> bool {
        is(first, Terminal::OpenBracket)
    }
}

impl Parse for Size {
    ghost reading = { λ i n at. size_of i.terminals n at };

    fn parse(input: &Input<'_>, depth: u32, at: u32) -> Result<Part<Size>, ParseError> {
        let signed = input.is_at(at, Terminal::Signed);
        let range = optional(input, depth, input.behind(Terminal::Signed, at))?;
        Ok(Part {
            tree: Size {
                signed,
                range: range.tree,
            },
            end: range.end,
        })
    }
}

impl Parse for Ptype {
    ghost reading = { λ i n at. ptype_of i.terminals n at };

    fn parse(input: &Input<'_>, depth: u32, at: u32) -> Result<Part<Ptype>, ParseError> {
        if input.is_at(at, Terminal::Integer) {
            return Ok(Part {
                tree: Ptype::Integer { at },
                end: at + 1,
            });
        }
        let size = Size::parse(input, depth, at)?;
        let Size { signed, range } = size.tree;
        Ok(Part {
            tree: Ptype::Vector { at, signed, range },
            end: size.end,
        })
    }
}

/// Names with commas between them.
pub fn names(input: &Input<'_>, depth: u32, at: u32) -> Result<Part<Items<u32>>, ParseError>
    ensures { Gives result (names_of input.now.terminals at) }
{
    separated(input, Terminal::Comma, depth, at)
}

fn integers(input: &Input<'_>, depth: u32, at: u32) -> Result<Part<Local>, ParseError>
    requires { at < 2 ^ 32 - 2 }
    ensures { Gives result (integers_of input.now.terminals at) }
{
    let names = names(input, depth, at + 1)?;
    input.expect(names.end, Terminal::Semicolon)?;
    Ok(Part {
        tree: Local::Integer {
            at,
            names: names.tree,
        },
        end: names.end + 1,
    })
}

fn regs(input: &Input<'_>, depth: u32, at: u32) -> Result<Part<Local>, ParseError>
    ensures { Gives result (regs_by input.now.terminals depth at) }
{
    input.expect(at, Terminal::Reg)?;
    let part: Part<(Size, Items<u32>)> = ended(input, Terminal::Semicolon, depth, at + 1)?;
    let (Size { signed, range }, names) = part.tree;
    Ok(Part {
        tree: Local::Reg {
            at,
            signed,
            range,
            names,
        },
        end: part.end,
    })
}

fn local(input: &Input<'_>, depth: u32, at: u32) -> Result<Part<Local>, ParseError>
    ensures { Gives result (local_by input.now.terminals depth at) }
{
    if input.is_at(at, Terminal::Integer) {
        integers(input, depth, at)
    } else {
        regs(input, depth, at)
    }
}

impl Parse for Local {
    ghost reading = { λ i n at. local_of i.terminals n at };

    #[tactic(auto, using(crate::proofs::Bridges::local_gives))]
    fn parse(input: &Input<'_>, depth: u32, at: u32) -> Result<Part<Local>, ParseError> {
        local(input, depth, at)
    }
}

impl Begin for Local {
    ghost opens = { opens_local };

    fn begins(first: Option<Terminal>) -> bool {
        is(first, Terminal::Reg) || is(first, Terminal::Integer)
    }
}
