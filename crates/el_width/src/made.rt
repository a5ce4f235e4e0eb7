//! Expressions whose context isn't known yet, and what they become at its length and sign.
ghost use Rattle.std.specs.Prelude.{◌≡◌, ◌&&◌, ◌||◌, not, Option, Some, None, IfOk, OnOk, fold, true, false, if◌then◌else◌};
ghost use Rattle.xt_base.specs.First.{sooner};
ghost use Rattle.el_design.specs.declared.expressions.Kind.TheVariants as kind_is;
ghost use Rattle.el_width.specs.Operands.{node, brought, brought_value, divisor_breaks, only_if, known_unary, known_binary, known_choice};
ghost use Rattle.el_width.specs.inner.Open.{made_of, made_view};

use crate::operators::divides;
use crate::values::{brought_value, in_range, is_zero, known_binary, known_choice, known_unary};
use el_design::{BinOp, Kind, TExpr, UnOp};
use sqlite_items::Boxed;
use std::alloc::Global;
use xt_base::{Finder, NoMemory, Refusal};
use xt_bits::Bits;

/// A typed expression, with its value if it is a constant that has one.
#[derive(Drop)]
pub(crate) struct Made {
    pub form: TExpr,
    pub known: Option<Bits>,
}

/// A divisor: whether it is constant, and the break that it is where it may be 0.
#[derive(Clone, Copy)]
pub(crate) struct Divisor {
    pub constant: bool,
    pub refusal: Refusal,
}

/// An expression whose context isn't known yet.
#[cycle(open)]
#[derive(Drop)]
pub(crate) enum Open {
    /// One with a length and a sign of its own.
    Own(Made),
    /// An operator whose operand, or whose operands, the context brings to its length and sign.
    Unary {
        op: UnOp,
        operand: Boxed<Open>,
    },
    Together {
        op: BinOp,
        left: Boxed<Open>,
        right: Boxed<Open>,
        divisor: Divisor,
    },
    Shifts {
        op: BinOp,
        left: Boxed<Open>,
        amount: Made,
    },
    Choice {
        test: Made,
        first: Boxed<Open>,
        second: Boxed<Open>,
    },
}

fn node(width: u32, signed: bool, kind: Kind) -> TExpr
    ensures { result ≡ node width signed kind }
{
    TExpr {
        width,
        signed,
        kind,
    }
}

/// An expression brought to a length and a sign.
fn brought(alloc: Global, width: u32, signed: bool, form: TExpr) -> Result<TExpr, NoMemory>
    ensures { IfOk result (λ e. e ≡ brought width signed form) }
{
    if form.width == width && form.signed == signed {
        return Ok(form);
    }
    let form = Boxed::new(alloc, form)?;
    Ok(node(width, signed, Kind::Resize(form)))
}

/// A unary operator at a length and a sign.
pub(crate) fn unary_made(
    alloc: Global,
    op: UnOp,
    width: u32,
    signed: bool,
    a: Made,
) -> Result<Made, NoMemory>
    ensures { IfOk result (λ m. m ≡ record { form = node width signed (kind_is.Unary op a.form); known = known_unary op a.known }) }
{
    let known = known_unary(op, a.known);
    let form = Boxed::new(alloc, a.form)?;
    Ok(Made {
        form: node(width, signed, Kind::Unary(op, form)),
        known,
    })
}

/// A binary operator at a length and a sign; its operands are compared or divided as signed where the last argument says so.
pub(crate) fn binary_made(
    alloc: Global,
    op: BinOp,
    width: u32,
    signed: bool,
    a: Made,
    b: Made,
    both: bool,
) -> Result<Made, NoMemory>
    ensures { IfOk result (λ m. m ≡ record { form = node width signed (kind_is.Binary op a.form b.form); known = known_binary op both a.known b.known }) }
{
    let known = known_binary(op, both, a.known, b.known);
    let left = Boxed::new(alloc, a.form)?;
    let right = Boxed::new(alloc, b.form)?;
    Ok(Made {
        form: node(width, signed, Kind::Binary(op, left, right)),
        known,
    })
}

/// A choice at a length and a sign.
fn choice_made(
    alloc: Global,
    width: u32,
    signed: bool,
    test: Made,
    a: Made,
    b: Made,
) -> Result<Made, NoMemory>
    ensures { IfOk result (λ m. m ≡ record { form = node width signed (kind_is.Choice test.form a.form b.form); known = known_choice test.known a.known b.known }) }
{
    let known = known_choice(test.known, a.known, b.known);
    let test = Boxed::new(alloc, test.form)?;
    let first = Boxed::new(alloc, a.form)?;
    let second = Boxed::new(alloc, b.form)?;
    Ok(Made {
        form: node(width, signed, Kind::Choice(test, first, second)),
        known,
    })
}

/// Reports a divisor that may be 0 at a length, if the length is in range.
fn report_divisor(op: BinOp, width: u32, divisor: Divisor, known: Option<Bits>, finder: &mut Finder)
    ensures { finder.new.first ≡ fold sooner finder.old.first (divisor_breaks op width divisor.constant known divisor.refusal) }
{
    if divides(op) && in_range(width) && (!divisor.constant || is_zero(known)) {
        finder.report(divisor.refusal);
    }
}

/// An expression with its own length and sign, brought to those of its context.
fn own_made(alloc: Global, own: Made, width: u32, signed: bool) -> Result<Made, NoMemory>
    ensures { IfOk result (λ m. m ≡ record { form = brought width signed own.form; known = brought_value width signed own.known }) }
{
    let known = brought_value(width, signed, own.known);
    let form = brought(alloc, width, signed, own.form)?;
    Ok(Made { form, known })
}

/// Brings an expression to a length in bits and a sign, and reports the divisors in it that may be 0 there.
pub(crate) fn bring(
    alloc: Global,
    expr: Open,
    width: u32,
    signed: bool,
    finder: &mut Finder,
) -> Result<Made, NoMemory>
    ensures made { IfOk result (λ m. m ≡ made_view (made_of expr width signed)) }
    ensures breaks { OnOk result (finder.new.first ≡ fold sooner finder.old.first (made_of expr width signed).broken) }
{
    match expr {
        Open::Own(own) => own_made(alloc, own, width, signed),
        Open::Unary { op, operand } => {
            let a = bring(alloc, operand.into_inner(), width, signed, finder)?;
            unary_made(alloc, op, width, signed, a)
        }
        Open::Together {
            op,
            left,
            right,
            divisor,
        } => {
            let a = bring(alloc, left.into_inner(), width, signed, finder)?;
            let b = bring(alloc, right.into_inner(), width, signed, finder)?;
            report_divisor(op, width, divisor, b.known, finder);
            binary_made(alloc, op, width, signed, a, b, signed)
        }
        Open::Shifts { op, left, amount } => {
            let a = bring(alloc, left.into_inner(), width, signed, finder)?;
            binary_made(alloc, op, width, signed, a, amount, signed)
        }
        Open::Choice {
            test,
            first,
            second,
        } => {
            let a = bring(alloc, first.into_inner(), width, signed, finder)?;
            let b = bring(alloc, second.into_inner(), width, signed, finder)?;
            choice_made(alloc, width, signed, test, a, b)
        }
    }
}
