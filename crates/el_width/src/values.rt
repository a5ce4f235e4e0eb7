//! Values of constants.
ghost use Rattle.std.specs.Prelude.{◌≡◌, ◌≢◌, ◌≤◌, ◌+◌, ◌*◌, ◌-◌, Option, Some, None, IsTrue, ℤ, pos, true, false, not, ◌&&◌, ◌==◌, option_map, if◌then◌else◌};
ghost use Rattle.xt_base.specs.declared.TheConstants.{MAX_WIDTH};
ghost use Rattle.xt_bits.specs.Word.{integer_of, truth, is_negative};
ghost use Rattle.xt_bits.specs.Operators.{concat_of, sar_of, shr_of};
ghost use Rattle.el_design.specs.Value.{unary_value, binary_value, copies};
ghost use Rattle.el_width.specs.Lengths.{in_range};
ghost use Rattle.el_width.specs.Operators.{divides};
ghost use Rattle.el_width.specs.Operands.{value_of, fits_operator, known_unary, known_binary, known_choice, known_joined, known_next, known_copies, brought_value, is_zero};

use crate::operators::divides;
use el_design::{BinOp, UnOp};
use xt_base::MAX_WIDTH;
use xt_bits::Bits;

/// Whether a length is one that a value may have.
pub(crate) fn in_range(width: u32) -> bool
    ensures value { result ≡ in_range width }
    ensures positive { IsTrue result → 1 ≤ width }
    ensures within { IsTrue result → width ≤ MAX_WIDTH }
{
    1 <= width && width <= MAX_WIDTH
}

fn truth(holds: bool) -> Bits
    ensures { result ≡ truth holds }
{
    if holds {
        Bits::new(1, 1)
    } else {
        Bits::new(1, 0)
    }
}

fn unary_value(op: UnOp, a: Bits) -> Bits
    ensures { result ≡ unary_value op a }
{
    match op {
        UnOp::Plus => a,
        UnOp::Minus => a.neg(),
        UnOp::Not => truth(!a.any()),
        UnOp::Inv => a.not(),
        UnOp::And => truth(a.all_ones()),
        UnOp::Nand => truth(!a.all_ones()),
        UnOp::Or => truth(a.any()),
        UnOp::Nor => truth(!a.any()),
        UnOp::Xor => truth(a.odd()),
        UnOp::Xnor => truth(!a.odd()),
    }
}

fn right_shifted(signed: bool, a: Bits, by: u64) -> Bits
    ensures { result ≡ (if signed then sar_of a by else shr_of a by) }
{
    if signed { a.sar(by) } else { a.shr(by) }
}

/// The value of an operator whose operands have one width, and whose divisor, if it has one, isn't 0.
fn same_width_value(op: BinOp, signed: bool, a: Bits, b: Bits) -> Bits
    requires widths { a.width ≡ b.width }
    requires divisor { divides op ≡ true → b.value ≢ 0 }
    ensures { result ≡ binary_value op signed signed a b }
{
    match op {
        BinOp::Mul => a.mul(b),
        BinOp::Div => a.div_const(b, signed),
        BinOp::Rem => a.rem_const(b, signed),
        BinOp::Add => a.add(b),
        BinOp::Sub => a.sub(b),
        BinOp::Shl | BinOp::Ashl => a.shl(b.value()),
        BinOp::Shr => a.shr(b.value()),
        BinOp::Ashr => right_shifted(signed, a, b.value()),
        BinOp::Lt => truth(a.lt(b, signed)),
        BinOp::Le => truth(!b.lt(a, signed)),
        BinOp::Gt => truth(b.lt(a, signed)),
        BinOp::Ge => truth(!a.lt(b, signed)),
        BinOp::Eq | BinOp::CaseEq => truth(a.eq(b)),
        BinOp::Ne | BinOp::CaseNe => truth(!a.eq(b)),
        BinOp::And => a.and(b),
        BinOp::Xor => a.xor(b),
        BinOp::Xnor => a.xor(b).not(),
        BinOp::Or => a.or(b),
        BinOp::LogAnd => truth(a.any() && b.any()),
        BinOp::LogOr => truth(a.any() || b.any()),
    }
}

/// The value of an operator, if its operands fit it.
fn value_of(op: BinOp, signed: bool, a: Bits, b: Bits) -> Option<Bits>
    ensures { result ≡ value_of op signed a b }
{
    match op {
        BinOp::Shl | BinOp::Ashl => Some(a.shl(b.value())),
        BinOp::Shr => Some(a.shr(b.value())),
        BinOp::Ashr => Some(right_shifted(signed, a, b.value())),
        BinOp::LogAnd => Some(truth(a.any() && b.any())),
        BinOp::LogOr => Some(truth(a.any() || b.any())),
        BinOp::Mul
        | BinOp::Div
        | BinOp::Rem
        | BinOp::Add
        | BinOp::Sub
        | BinOp::Lt
        | BinOp::Le
        | BinOp::Gt
        | BinOp::Ge
        | BinOp::Eq
        | BinOp::Ne
        | BinOp::CaseEq
        | BinOp::CaseNe
        | BinOp::And
        | BinOp::Xor
        | BinOp::Xnor
        | BinOp::Or => one_width_value(op, signed, a, b),
    }
}

/// The value of an operator that takes operands of one width, if they are so and no divisor is 0.
fn one_width_value(op: BinOp, signed: bool, a: Bits, b: Bits) -> Option<Bits>
    ensures { result ≡ (if a.width == b.width && not (divides op && b.value == 0) then Some (binary_value op signed signed a b) else None) }
{
    if a.width() != b.width() || divides(op) && b.value() == 0 {
        return None;
    }
    Some(same_width_value(op, signed, a, b))
}

pub(crate) fn known_unary(op: UnOp, a: Option<Bits>) -> Option<Bits>
    ensures { result ≡ known_unary op a }
{
    match a {
        Some(a) => Some(unary_value(op, a)),
        None => None,
    }
}

pub(crate) fn known_binary(
    op: BinOp,
    signed: bool,
    a: Option<Bits>,
    b: Option<Bits>,
) -> Option<Bits>
    ensures { result ≡ known_binary op signed a b }
{
    match (a, b) {
        (Some(a), Some(b)) => value_of(op, signed, a, b),
        (Some(_), None) => None,
        (None, _) => None,
    }
}

pub(crate) fn known_choice(
    test: Option<Bits>,
    first: Option<Bits>,
    second: Option<Bits>,
) -> Option<Bits>
    ensures { result ≡ known_choice test first second }
{
    match test {
        Some(test) => { if test.any() { first } else { second } }
        None => None,
    }
}

/// A value brought to a length and a sign, if the length is in range.
pub(crate) fn brought_value(width: u32, signed: bool, value: Option<Bits>) -> Option<Bits>
    ensures { result ≡ brought_value width signed value }
{
    match value {
        Some(value) => {
            if in_range(width) {
                Some(value.extend(width, signed))
            } else {
                None
            }
        }
        None => None,
    }
}

fn joined(high: Bits, low: Bits) -> Option<Bits>
    ensures { result ≡ (if in_range (high.width + low.width) then Some (concat_of high low) else None) }
{
    if in_range(high.width() + low.width()) {
        Some(high.concat(low))
    } else {
        None
    }
}

/// One value more behind what has been joined so far.
pub(crate) fn known_next(before: Option<Option<Bits>>, value: Option<Bits>) -> Option<Option<Bits>>
    ensures { result ≡ known_next before value }
{
    match (before, value) {
        (None, value) => Some(value),
        (Some(Some(before)), Some(value)) => Some(joined(before, value)),
        (Some(Some(_)), None) => Some(None),
        (Some(None), _) => Some(None),
    }
}

/// A value and so many more copies of it, which fit together.
#[tactic(auto, using(crate::proofs::Cut::room))]
fn copies(more: u32, value: Bits) -> Bits
    requires { more * value.width + value.width ≤ MAX_WIDTH }
    ensures { result ≡ copies more value }
{
    let mut all = value;
    for _ in 0..more {
        all = all.concat(value);
    }
    all
}

/// So many copies of a value, if they have a length in range together.
#[tactic(auto, using(crate::proofs::Cut::counted, crate::proofs::Cut::small))]
pub(crate) fn known_copies(count: u32, value: Option<Bits>) -> Option<Bits>
    requires { count ≤ MAX_WIDTH + 1 }
    ensures { result ≡ known_copies count value }
{
    match value {
        Some(value) => {
            if in_range(count * value.width()) {
                Some(copies(count - 1, value))
            } else {
                None
            }
        }
        None => None,
    }
}

/// Whether a value is known, and is 0.
pub(crate) fn is_zero(value: Option<Bits>) -> bool
    ensures { result ≡ is_zero value }
{
    match value {
        Some(value) => value.value() == 0,
        None => false,
    }
}

/// The whole number that a value stands for.
pub(crate) fn integer(value: Bits, signed: bool) -> i128
    ensures { result ≡ integer_of value signed }
{
    if signed && is_negative(value) {
        i128::from(value.value()) - (1i128 << value.width())
    } else {
        i128::from(value.value())
    }
}

/// Whether the highest bit is up.
fn is_negative(value: Bits) -> bool
    ensures { result ≡ is_negative value }
{
    value.value() >> (value.width() - 1) == 1
}
