//! What is asked of an expression: its value as a constant, or its typed form in a context.
ghost use Rattle.std.specs.Prelude.{◌≡◌, ◌++◌, Option, Some, None, IfOk, OnOk, fold, option_map, true, false};
ghost use Rattle.xt_base.specs.First.{sooner};
ghost use Rattle.el_width.specs.Expressions.{typed_of, in_context, constant_breaks, constant_of, expression_breaks, expression_form, context_length, context_sign};
ghost use Rattle.el_width.specs.inner.Open.{made_view};
ghost use Rattle.el_width.specs.inner.Operands.{operand_of};

use crate::environment::{Constant, Env};
use crate::lengths::{larger, width_of};
use crate::made::{Made, bring};
use crate::operands::Operand;
use crate::read::read;
use el_design::TExpr;
use std::alloc::Global;
use vl_tree::Expr;
use xt_base::{Finder, NoMemory};

/// The length and the sign to which a context brings an operand.
fn brought_to(context: Option<(u32, bool)>, a: &Operand) -> (u32, bool)
    ensures { result ≡ (context_length context (operand_of a.now), context_sign context (operand_of a.now)) }
{
    match context {
        None => (width_of(a.length), a.signed),
        Some((width, signed)) => (width_of(larger(Some(width), a.length)), a.signed && signed),
    }
}

/// An expression in its context, and whether it is signed there.
fn in_context(
    alloc: Global,
    env: &Env<'_>,
    expr: &Expr,
    must: bool,
    context: Option<(u32, bool)>,
    finder: &mut Finder,
) -> Result<(Made, bool), NoMemory>
    ensures made { IfOk result (λ p. p.0 ≡ made_view (in_context context (typed_of env.now expr.now).operand)) }
    ensures sign { IfOk result (λ p. p.1 ≡ context_sign context (typed_of env.now expr.now).operand) }
    ensures breaks { OnOk result (finder.new.first ≡ fold sooner finder.old.first ((typed_of env.now expr.now).broken must ++ (in_context context (typed_of env.now expr.now).operand).broken)) }
{
    let operand = read(alloc, env, expr, must, finder)?;
    let (width, signed) = brought_to(context, &operand);
    let made = bring(alloc, operand.expr, width, signed, finder)?;
    Ok((made, signed))
}

/// The value of an expression that must be constant. What is broken in it, by rules 32, 40, 41 and 42, is reported;
/// where something is, the value means nothing. None where it has no value: a parameter in it has none, a length is
/// out of range, or a divisor is 0.
///
/// Without a context it stands by itself. In the context of a width in bits and a sign it has the larger of the width
/// and its own length, and is signed exactly where it is signed by itself and the context's sign is true
/// (IEEE 1364-2005, 5.4.1 and 5.5.2).
pub fn constant(
    alloc: Global,
    env: &Env<'_>,
    expr: &Expr,
    context: Option<(u32, bool)>,
    finder: &mut Finder,
) -> Result<Option<Constant>, NoMemory>
    ensures value { IfOk result (λ c. c ≡ constant_of env.now context expr.now) }
    ensures breaks { OnOk result (finder.new.first ≡ fold sooner finder.old.first (constant_breaks env.now context expr.now)) }
{
    let (made, signed) = in_context(alloc, env, expr, true, context, finder)?;
    match made.known {
        Some(value) => Ok(Some(Constant { value, signed })),
        None => Ok(None),
    }
}

/// The typed form of an expression. What is broken in it, by rules 32, 40, 41 and 42, is reported; where something is,
/// the form means nothing.
///
/// The context is that of `constant`.
pub fn type_expr(
    alloc: Global,
    env: &Env<'_>,
    expr: &Expr,
    context: Option<(u32, bool)>,
    finder: &mut Finder,
) -> Result<TExpr, NoMemory>
    ensures form { IfOk result (λ e. e ≡ expression_form env.now context expr.now) }
    ensures breaks { OnOk result (finder.new.first ≡ fold sooner finder.old.first (expression_breaks env.now context expr.now)) }
{
    let (made, _) = in_context(alloc, env, expr, false, context, finder)?;
    Ok(made.form)
}
