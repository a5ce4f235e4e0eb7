//! The operands that source expressions are, with what is broken in them.
ghost use Rattle.std.specs.Prelude.{◌≡◌, ◌++◌, ◌∷◌, [], Option, Some, None, IfOk, OnOk, fold, map, flat_map, drop, slice_get, true, false};
ghost use Rattle.xt_base.specs.First.{sooner};
ghost use Rattle.el_width.specs.Environment.{means};
ghost use Rattle.el_width.specs.Operands.{arguments, formals_of, variable, called};
ghost use Rattle.el_width.specs.Breaks.{alone, operands, argument_breaks, name_breaks, call_breaks};
ghost use Rattle.el_width.specs.Expressions.{typed_of, chosen_of};
ghost use Rattle.el_width.specs.inner.Operands.{operand_of, alone_view, parts_of};

use crate::environment::Env;
use crate::numbers::{based, decimal};
use crate::operands::{
    Alone, Operand, Parts, binary, choice, concat, literal, passed, replicate, settle, unary,
    with_sign,
};
use crate::operators::is_signed_word;
use crate::selects::{Taken, call, down, formals, index, name, part, report_call, report_name, up};
use el_design::TExpr;
use sqlite_items::Items;
use std::alloc::Global;
use vl_tree::{Expr, Select};
use xt_base::{Finder, NoMemory};

/// An expression that stands by itself.
#[cycle(read)]
fn alone(
    alloc: Global,
    env: &Env<'_>,
    expr: &Expr,
    must: bool,
    finder: &mut Finder,
) -> Result<Alone, NoMemory>
    ensures alone { IfOk result (λ x. x ≡ alone_view (typed_of env.now expr.now).operand) }
    ensures breaks { OnOk result (finder.new.first ≡ fold sooner finder.old.first (alone must (typed_of env.now expr.now))) }
{
    let operand = read(alloc, env, expr, must, finder)?;
    settle(alloc, operand, finder)
}

/// An expression behind one that was read before, which is handed out again.
#[cycle(read)]
fn behind(
    alloc: Global,
    env: &Env<'_>,
    expr: &Expr,
    first: Operand,
    must: bool,
    finder: &mut Finder,
) -> Result<(Operand, Operand), NoMemory>
    ensures first { IfOk result (λ p. p.0 ≡ first) }
    ensures operand { IfOk result (λ p. operand_of p.1 ≡ (typed_of env.now expr.now).operand) }
    ensures breaks { OnOk result (finder.new.first ≡ fold sooner finder.old.first ((typed_of env.now expr.now).broken must)) }
{
    let operand = read(alloc, env, expr, must, finder)?;
    Ok((first, operand))
}

/// The same behind an expression that stands by itself.
#[cycle(read)]
fn behind_alone(
    alloc: Global,
    env: &Env<'_>,
    expr: &Expr,
    first: Alone,
    must: bool,
    finder: &mut Finder,
) -> Result<(Alone, Operand), NoMemory>
    ensures first { IfOk result (λ p. p.0 ≡ first) }
    ensures operand { IfOk result (λ p. operand_of p.1 ≡ (typed_of env.now expr.now).operand) }
    ensures breaks { OnOk result (finder.new.first ≡ fold sooner finder.old.first ((typed_of env.now expr.now).broken must)) }
{
    let operand = read(alloc, env, expr, must, finder)?;
    Ok((first, operand))
}

/// The parts of a concatenation.
#[cycle(read)]
#[tactic(auto, using(crate::proofs::Joined::parts_are))]
fn parts(
    alloc: Global,
    env: &Env<'_>,
    exprs: &[Expr],
    must: bool,
    finder: &mut Finder,
) -> Result<Parts, NoMemory>
    ensures parts { IfOk result (λ p. p ≡ parts_of (operands (map (typed_of env.now) exprs.now))) }
    ensures breaks { OnOk result (finder.new.first ≡ fold sooner finder.old.first (flat_map (alone must) (map (typed_of env.now) exprs.now))) }
{
    let mut all = Parts::new(alloc);
    for expr in exprs {
        all.push(alone(alloc, env, expr, must, finder)?)?;
    }
    Ok(all)
}

/// The widths of the formals behind the first.
fn behind_first(formals: &[u32]) -> &[u32]
    ensures { result.now ≡ drop 1 formals.now }
{
    if formals.is_empty() {
        formals
    } else {
        &formals[1..]
    }
}

/// The width of the first formal, if there is one.
fn first_of(formals: &[u32]) -> Option<u32>
    ensures { result ≡ slice_get formals.now 0 }
{
    match formals.first() {
        Some(width) => Some(*width),
        None => None,
    }
}

/// The arguments of a call, each brought to its formal.
#[cycle(read)]
fn arguments(
    alloc: Global,
    env: &Env<'_>,
    exprs: &[Expr],
    must: bool,
    formals: &[u32],
    finder: &mut Finder,
) -> Result<Items<TExpr>, NoMemory>
    ensures forms { IfOk result (λ es. es ≡ map (λ m. m.form) (arguments formals.now (operands (map (typed_of env.now) exprs.now)))) }
    ensures breaks { OnOk result (finder.new.first ≡ fold sooner finder.old.first (argument_breaks must formals.now (map (typed_of env.now) exprs.now))) }
{
    let mut forms = Items::new(alloc);
    let mut left = formals;
    for expr in exprs {
        let operand = read(alloc, env, expr, must, finder)?;
        forms.push(passed(alloc, first_of(left), operand, finder)?)?;
        left = behind_first(left);
    }
    Ok(forms)
}

/// The selects behind a name.
#[cycle(read)]
fn selects(
    alloc: Global,
    env: &Env<'_>,
    list: &[Select],
    must: bool,
    finder: &mut Finder,
) -> Result<Items<Taken>, NoMemory>
    ensures taken { IfOk result (λ ts. ts ≡ map (λ t. t.taken) (map (chosen_of env.now) list.now)) }
    ensures breaks { OnOk result (finder.new.first ≡ fold sooner finder.old.first (flat_map (λ t. t.broken must) (map (chosen_of env.now) list.now))) }
{
    let mut all = Items::new(alloc);
    for select in list {
        all.push(taken(alloc, env, select, must, finder)?)?;
    }
    Ok(all)
}

/// A select. Its bounds and its width must be constant.
#[cycle(read)]
#[tactic(auto, using(crate::proofs::Layers::part_broken, crate::proofs::Layers::up_broken, crate::proofs::Layers::down_broken))]
fn taken(
    alloc: Global,
    env: &Env<'_>,
    select: &Select,
    must: bool,
    finder: &mut Finder,
) -> Result<Taken, NoMemory>
    ensures taken { IfOk result (λ t. t ≡ (chosen_of env.now select.now).taken) }
    ensures breaks { OnOk result (finder.new.first ≡ fold sooner finder.old.first ((chosen_of env.now select.now).broken must)) }
{
    match select {
        Select::Index { index: i, .. } => index(alloc, alone(alloc, env, i, must, finder)?),
        Select::Part { at, msb, lsb } => {
            let high = alone(alloc, env, msb, true, finder)?.whole();
            let low = alone(alloc, env, lsb, true, finder)?.whole();
            Ok(part(env, *at, high, low, finder))
        }
        Select::Up { at, base, width } => {
            let from = alone(alloc, env, base, must, finder)?;
            let length = alone(alloc, env, width, true, finder)?.count();
            up(alloc, env, *at, from, length, finder)
        }
        Select::Down { at, base, width } => {
            let from = alone(alloc, env, base, must, finder)?;
            let length = alone(alloc, env, width, true, finder)?.count();
            down(alloc, env, *at, from, length, finder)
        }
    }
}

/// What an expression is as an operand, with what is broken in it; where it must be constant, a name that is no parameter is.
#[cycle(read)]
#[tactic(auto, using(crate::proofs::Layers::unary_broken, crate::proofs::Layers::replicate_broken))]
pub(crate) fn read(
    alloc: Global,
    env: &Env<'_>,
    expr: &Expr,
    must: bool,
    finder: &mut Finder,
) -> Result<Operand, NoMemory>
    ensures operand { IfOk result (λ o. operand_of o ≡ (typed_of env.now expr.now).operand) }
    ensures breaks { OnOk result (finder.new.first ≡ fold sooner finder.old.first ((typed_of env.now expr.now).broken must)) }
{
    match expr {
        Expr::Choice {
            at,
            test,
            first,
            second,
        } => {
            let test = alone(alloc, env, test.get(), must, finder)?;
            let (test, a) = behind_alone(alloc, env, first.get(), test, must, finder)?;
            let (a, b) = behind(alloc, env, second.get(), a, must, finder)?;
            choice(alloc, *at, test, a, b)
        }
        Expr::Binary {
            at,
            op,
            left,
            right,
        } => {
            let a = read(alloc, env, left.get(), must, finder)?;
            let b = read(alloc, env, right.get(), must, finder)?;
            binary(alloc, env, *at, *op, a, b, finder)
        }
        Expr::Unary { at, op, operand } => {
            let a = read(alloc, env, operand.get(), must, finder)?;
            unary(alloc, *at, *op, a, finder)
        }
        Expr::Based { at, size, number } => {
            Ok(literal(env, *at, based(env, *size, *number), finder))
        }
        Expr::Decimal { at, number } => Ok(literal(env, *at, decimal(env, *number), finder)),
        Expr::Name {
            at,
            name: word,
            selects: list,
        } => {
            report_name(env, must, *word, finder);
            let taken = selects(alloc, env, list.as_slice(), must, finder)?;
            name(alloc, env, *at, *word, taken)
        }
        Expr::Call {
            at,
            name: word,
            args,
        } => {
            report_call(env, must, *word, finder);
            let args = arguments(
                alloc,
                env,
                args.as_slice(),
                must,
                formals(env, *word),
                finder,
            )?;
            Ok(call(env, *at, *word, args))
        }
        Expr::Sign { at, sign, value } => {
            let a = alone(alloc, env, value.get(), must, finder)?;
            with_sign(alloc, *at, is_signed_word(*sign), a)
        }
        Expr::Concat { at, parts: list } => {
            let all = parts(alloc, env, list.as_slice(), must, finder)?;
            Ok(concat(env, *at, all, finder))
        }
        Expr::Replicate {
            at,
            count,
            parts: list,
        } => {
            let n = alone(alloc, env, count.get(), true, finder)?;
            let all = parts(alloc, env, list.as_slice(), must, finder)?;
            replicate(alloc, env, *at, n, all, finder)
        }
    }
}
