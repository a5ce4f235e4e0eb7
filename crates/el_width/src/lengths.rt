//! Lengths in bits. None is a length that a break leaves open.
ghost use Rattle.std.specs.Prelude.{◌≡◌, ◌+◌, ◌-◌, ◌≤◌, Option, Some, None, IfSome};
ghost use Rattle.el_width.specs.Lengths.{larger, plus, times, is_wrong_length, width_of, count_of, bounds, is_bounds};

use crate::values::in_range;
use xt_base::MAX_WIDTH;

/// The larger of two lengths.
pub(crate) fn larger(a: Option<u32>, b: Option<u32>) -> Option<u32>
    ensures { result ≡ larger a b }
{
    match (a, b) {
        (Some(a), Some(b)) => Some(if a < b { b } else { a }),
        (Some(_), None) => None,
        (None, _) => None,
    }
}

/// The sum of two lengths.
pub(crate) fn plus(a: Option<u32>, b: Option<u32>) -> Option<u32>
    ensures { result ≡ plus a b }
{
    match (a, b) {
        (Some(a), Some(b)) => Some(a.saturating_add(b).min(MAX_WIDTH + 1)),
        (Some(_), None) => None,
        (None, _) => None,
    }
}

/// So many times a length.
pub(crate) fn times(count: Option<u32>, length: Option<u32>) -> Option<u32>
    ensures { result ≡ times count length }
{
    match (count, length) {
        (Some(a), Some(b)) => Some(a.saturating_mul(b).min(MAX_WIDTH + 1)),
        (Some(_), None) => None,
        (None, _) => None,
    }
}

/// Whether a length is known, and isn't in range.
pub(crate) fn is_wrong_length(length: Option<u32>) -> bool
    ensures { result ≡ is_wrong_length length }
{
    match length {
        Some(length) => !in_range(length),
        None => false,
    }
}

/// The number that stands for a length; 0 for an open one.
pub(crate) fn width_of(length: Option<u32>) -> u32
    ensures { result ≡ width_of length }
{
    length.unwrap_or(0)
}

/// A whole number as a count or a width; one below 1 counts as 0.
pub(crate) fn count_of(number: i128) -> u32
    ensures value { result ≡ count_of number }
    ensures small { result ≤ MAX_WIDTH + 1 }
{
    if number < 0 {
        0
    } else if number > MAX_WIDTH as i128 {
        MAX_WIDTH + 1
    } else {
        number as u32
    }
}

/// The bounds of a range or part select: `65535 >= msb >= lsb >= 0`.
pub(crate) fn bounds(msb: i128, lsb: i128) -> Option<(u32, u32)>
    ensures value { result ≡ bounds msb lsb }
    ensures order { IfSome result (λ b. (b.1 ≤ b.0) × (b.0 ≤ 65535)) }
{
    if 0 <= lsb && lsb <= msb && msb <= 65535 {
        Some((msb as u32, lsb as u32))
    } else {
        None
    }
}
