//! Numbers as they are written (IEEE 1364-2005, 3.5.1).
ghost use Rattle.std.specs.Prelude.{◌≡◌, ◌^◌, ◌%◌, ◌-◌, ◌≤◌, min, nat_lt, Option, Some, None};
ghost use Rattle.xt_base.specs.declared.TheConstants.{MAX_WIDTH};
ghost use Rattle.vl_lex.specs.Numbers.{number_of, based_number};
ghost use Rattle.el_width.specs.Environment.{spelled};
ghost use Rattle.el_width.specs.Lengths.{capped, in_range};
ghost use Rattle.el_width.specs.Numbers.{unsized, sized, based, decimal, kept_width};

use crate::environment::Env;
use crate::values::in_range;
use vl_lex::{BasedValue, based_value, capped_value, wrapped_value};
use xt_base::MAX_WIDTH;
use xt_bits::Bits;

/// A number as it is written.
#[derive(Clone, Copy, Debug, PartialEq, Eq)]
pub struct Literal {
    /// In bits; one past the greatest width stands for any wider one.
    pub width: u32,
    pub signed: bool,
    /// A number that is longer than its size loses its high bits.
    pub bits: Bits,
    /// Whether rule 40 lets it stand.
    pub fits: bool,
}

/// The size that the digits of a token give, with one past the greatest width for any greater one.
#[tactic(auto, using(crate::proofs::Cut::capped_twice))]
fn size_of(digits: &[u8]) -> u32
    ensures { result ≡ capped (number_of 10 digits.now) }
{
    let size = capped_value(10, digits);
    if size <= u64::from(MAX_WIDTH) {
        size as u32
    } else {
        MAX_WIDTH + 1
    }
}

/// The width of the bits that a size keeps.
fn kept_width(size: u32) -> u32
    ensures value { result ≡ kept_width size }
    ensures positive { 1 ≤ result }
    ensures within { result ≤ MAX_WIDTH }
{
    if in_range(size) { size } else { 1 }
}

/// Whether a number without a size fits its 32 bits.
#[tactic(auto, using(crate::proofs::Cut::below_capped))]
fn fits_unsized(digits: &[u8], radix: u64) -> bool
    ensures { result ≡ nat_lt (number_of radix digits.now) (2 ^ 32) }
{
    capped_value(radix, digits) < 1 << 32
}

/// A decimal number.
#[tactic(auto, using(crate::proofs::Cut::low_word))]
pub(crate) fn decimal(env: &Env<'_>, number: u32) -> Literal
    ensures { result ≡ decimal env.now number }
{
    let digits = env.spelled(number);
    Literal {
        width: 32,
        signed: true,
        bits: Bits::new(32, wrapped_value(10, digits)),
        fits: fits_unsized(digits, 10),
    }
}

/// A based number without a size.
#[tactic(auto, using(crate::proofs::Cut::low_word, crate::proofs::Cut::below_capped))]
fn unsized_based(env: &Env<'_>, number: u32) -> Literal
    ensures { result ≡ based env.now None number }
{
    let value = based_value(env.spelled(number));
    Literal {
        width: 32,
        signed: value.signed,
        bits: Bits::new(32, value.low),
        fits: value.capped < 1 << 32,
    }
}

/// A based number behind its size.
#[tactic(auto, using(crate::proofs::Cut::low_word, crate::proofs::Cut::kept_capped, crate::proofs::Cut::range_capped))]
fn sized_based(env: &Env<'_>, size: u32, number: u32) -> Literal
    ensures { result ≡ based env.now (Some size) number }
{
    let value = based_value(env.spelled(number));
    let width = size_of(env.spelled(size));
    Literal {
        width,
        signed: value.signed,
        bits: Bits::new(kept_width(width), value.low),
        fits: in_range(width),
    }
}

/// A based number.
pub(crate) fn based(env: &Env<'_>, size: Option<u32>, number: u32) -> Literal
    ensures { result ≡ based env.now size number }
{
    match size {
        Some(size) => sized_based(env, size, number),
        None => unsized_based(env, number),
    }
}
