//! The statements of a source's process.
ghost use Rattle.std.specs.Prelude.{◌≡◌, []};
ghost use Rattle.xt_compile.specs.first.Tree.{Gives, is_null, alone, number_sum, name_sum, joined, sum_of, target_of, assigned, step_of, steps_from};

use crate::first::numbers::{based_value, size};
use crate::first::reader::ports::Ports;
use crate::first::source::{Step, Sum, Term, find};
use crate::first::tokens::{FormError, Lexed};
use sqlite_items::Items;
use std::alloc::Global;
use vl_tree::{BinOp, Edge, Expr, Lvalue, Stmt};
use xt_base::Place;
use xt_bits::Bits;

/// The greatest number of operators of an expression.
const MAX_OPERATORS: usize = 16;

/// The steps of the form that these statements are.
pub fn read_steps(
    alloc: Global,
    lexed: &Lexed<'_>,
    clock: &[u8],
    ports: &Ports,
    body: &[Stmt],
) -> Result<Items<Step>, FormError>
    ensures { Gives result (steps_from lexed.now.names lexed.now.places ports.now clock.now [] body.now) }
{
    let mut steps = Items::new(alloc);
    for stmt in body {
        let step = step(alloc, lexed, clock, ports, stmt)?;
        steps.push(step)?;
    }
    Ok(steps)
}

/// The step that a statement is.
fn step(
    alloc: Global,
    lexed: &Lexed<'_>,
    clock: &[u8],
    ports: &Ports,
    stmt: &Stmt,
) -> Result<Step, FormError>
    ensures { Gives result (step_of lexed.now.names lexed.now.places ports.now clock.now stmt.now) }
{
    match stmt {
        Stmt::Wait {
            at,
            edge: Edge::Posedge,
            clock: name,
            body,
        } if lexed.spells(*name, clock) && is_null(body.get()) => Ok(Step::Wait {
            at: lexed.place(*at),
        }),
        Stmt::Nonblocking { at, target, value } => {
            let at = lexed.place(*at);
            assign(alloc, lexed, ports, at, target.get(), value.get())
        }
        _ => Err(FormError::OutOfForm),
    }
}

/// Whether a statement is `;`.
fn is_null(stmt: &Stmt) -> bool
    ensures { result ≡ is_null stmt.now }
{
    matches!(stmt, Stmt::Null { .. })
}

/// The assignment of an expression to a target.
fn assign(
    alloc: Global,
    lexed: &Lexed<'_>,
    ports: &Ports,
    at: Place,
    target: &Lvalue,
    value: &Expr,
) -> Result<Step, FormError>
    ensures { Gives result (assigned lexed.now.names ports.now at target.now value.now) }
{
    let (output, width) = target_output(lexed, ports, target)?;
    let value = sum(alloc, lexed, ports, value)?;
    if value.width == width && value.more.len() <= MAX_OPERATORS {
        Ok(Step::Assign { at, output, value })
    } else {
        Err(FormError::OutOfForm)
    }
}

/// The place and the width in bits of the output that a target is.
fn target_output(
    lexed: &Lexed<'_>,
    ports: &Ports,
    target: &Lvalue,
) -> Result<(usize, u32), FormError>
    ensures { Gives result (target_of lexed.now.names ports.now target.now) }
{
    match target {
        Lvalue::Name { name, selects, .. } if selects.is_empty() => {
            find(ports.outputs.as_slice(), lexed.at(*name)?).ok_or(FormError::OutOfForm)
        }
        _ => Err(FormError::OutOfForm),
    }
}

/// The sum that an expression is.
fn sum(alloc: Global, lexed: &Lexed<'_>, ports: &Ports, expr: &Expr) -> Result<Sum, FormError>
    ensures { Gives result (sum_of lexed.now.names ports.now expr.now) }
{
    match expr {
        Expr::Name { name, selects, .. } => {
            if !selects.is_empty() {
                return Err(FormError::OutOfForm);
            }
            port_sum(alloc, lexed, ports, *name)
        }
        Expr::Based {
            size: Some(size),
            number,
            ..
        } => number_sum(alloc, lexed, *size, *number),
        Expr::Binary {
            op: BinOp::Add,
            left,
            right,
            ..
        } => {
            let left = sum(alloc, lexed, ports, left.get())?;
            let right = sum(alloc, lexed, ports, right.get())?;
            joined(left, right)
        }
        _ => Err(FormError::OutOfForm),
    }
}

/// The sum of a sum and of one term.
fn joined(left: Sum, right: Sum) -> Result<Sum, FormError>
    ensures { Gives result (joined left right) }
{
    if !right.more.is_empty() || right.width != left.width {
        return Err(FormError::OutOfForm);
    }
    let mut more = left.more;
    more.push(right.first)?;
    Ok(Sum {
        width: left.width,
        first: left.first,
        more,
    })
}

/// A sum of one term of this width.
fn alone(alloc: Global, first: Term, width: u32) -> Sum
    ensures { result ≡ alone first width }
{
    Sum {
        width,
        first,
        more: Items::new(alloc),
    }
}

/// The port with the name that a token spells.
fn port_sum(alloc: Global, lexed: &Lexed<'_>, ports: &Ports, name: u32) -> Result<Sum, FormError>
    ensures { Gives result (name_sum lexed.now.names ports.now name) }
{
    let name = lexed.at(name)?;
    if let Some((input, width)) = find(ports.inputs.as_slice(), name) {
        return Ok(alone(alloc, Term::Input(input), width));
    }
    match find(ports.outputs.as_slice(), name) {
        Some((output, width)) => Ok(alone(alloc, Term::Output(output), width)),
        None => Err(FormError::OutOfForm),
    }
}

/// The number of a size that two tokens spell.
fn number_sum(alloc: Global, lexed: &Lexed<'_>, bits: u32, digits: u32) -> Result<Sum, FormError>
    ensures { Gives result (number_sum lexed.now.names bits digits) }
{
    let bits = lexed.at(bits)?;
    let digits = lexed.at(digits)?;
    let width = size(bits)?;
    let Some(value) = based_value(digits) else {
        return Err(FormError::OutOfForm);
    };
    Ok(alone(alloc, Term::Number(Bits::new(width, value)), width))
}
