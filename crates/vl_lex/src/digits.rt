//! The values of number tokens (IEEE 1364-2005, 3.5.1).
ghost use Rattle.std.specs.Prelude.{◌≡◌, ◌+◌, ◌-◌, ◌*◌, ◌%◌, ◌^◌, ◌≤◌, Some, None, min, nat_lt, unwrap_or, if◌then◌else◌};
ghost use Rattle.std.specs.Char.{digit_value};
ghost use Rattle.vl_lex.specs.Bytes.{is_sign, radix_of};
ghost use Rattle.vl_lex.specs.Numbers.{number_of, based_number, based_digits, behind_quote, kept_number};

use crate::bytes::{is_sign, radix_of};

/// A based number as it is written. A number of any length is told by its lowest 64 bits, which are all that a size keeps,
/// and by whether it is greater than a limit.
#[derive(Clone, Copy, Debug, PartialEq, Eq)]
pub struct BasedValue {
    /// Whether `s` or `S` stands behind the quote.
    pub signed: bool,
    /// 2, 8, 10 or 16.
    pub radix: u64,
    /// The value modulo 2 to the power of 64.
    pub low: u64,
    /// The value, or `u64::MAX` where it is greater.
    pub capped: u64,
}

/// The value of a digit of either case. None for `_` and blanks.
fn digit(byte: u8) -> Option<u64>
    ensures { result ≡ (if nat_lt (digit_value byte) 16 then Some (digit_value byte) else None) }
{
    match char::from(byte).to_digit(16) {
        Some(digit) => Some(u64::from(digit)),
        None => None,
    }
}

/// Digits and one byte more, or `u64::MAX` where the number is greater.
fn capped_more(radix: u64, value: u64, byte: u8) -> u64
    ensures { result ≡ (if nat_lt (digit_value byte) 16 then min (value * radix + digit_value byte) (2 ^ 64 - 1) else value) }
{
    match digit(byte) {
        Some(digit) => value.saturating_mul(radix).saturating_add(digit),
        None => value,
    }
}

/// The value of digits to a radix, or `u64::MAX` where it is greater.
///
/// A number of a million digits is told to be too large without being computed.
pub fn capped_value(radix: u64, digits: &[u8]) -> u64
    ensures { result ≡ min (number_of radix digits.now) (2 ^ 64 - 1) }
{
    let mut value = 0u64;
    for byte in digits {
        value = capped_more(radix, value, *byte);
    }
    value
}

/// Digits and one byte more, modulo 2 to the power of 64.
fn wrapped_more(radix: u64, value: u64, byte: u8) -> u64
    ensures { result ≡ (if nat_lt (digit_value byte) 16 then (value * radix + digit_value byte) % 2 ^ 64 else value) }
{
    match digit(byte) {
        Some(digit) => value.wrapping_mul(radix).wrapping_add(digit),
        None => value,
    }
}

/// The value of digits to a radix modulo 2 to the power of 64.
pub fn wrapped_value(radix: u64, digits: &[u8]) -> u64
    ensures { result ≡ number_of radix digits.now % 2 ^ 64 }
{
    let mut value = 0u64;
    for byte in digits {
        value = wrapped_more(radix, value, *byte);
    }
    value
}

/// A base and digits.
fn based_digits(signed: bool, bytes: &[u8]) -> BasedValue
    ensures { result ≡ kept_number (based_digits signed bytes.now) }
{
    match bytes.split_first() {
        None => BasedValue {
            signed,
            radix: 2,
            low: 0,
            capped: 0,
        },
        Some((base, digits)) => {
            let radix = u64::from(radix_of(*base).unwrap_or(2));
            BasedValue {
                signed,
                radix,
                low: wrapped_value(radix, digits),
                capped: capped_value(radix, digits),
            }
        }
    }
}

/// A sign or none, a base and digits.
fn behind_quote(bytes: &[u8]) -> BasedValue
    ensures { result ≡ kept_number (behind_quote bytes.now) }
{
    match bytes.split_first() {
        Some((first, others)) if is_sign(*first) => based_digits(true, others),
        _ => based_digits(false, bytes),
    }
}

/// What a based number says: its sign, its radix and its value. `8'hff` has the token `'hff`, which is 255 to radix 16.
pub fn based_value(token: &[u8]) -> BasedValue
    ensures { result ≡ kept_number (based_number token.now) }
{
    match token.split_first() {
        None => behind_quote(&[]),
        Some((_, bytes)) => behind_quote(bytes),
    }
}
