//! The values of number tokens.
ghost use Rattle.std.specs.Prelude.{◌≡◌, ◌%◌, ◌^◌, suc, option_map};
ghost use Rattle.vl_lex.specs.Numbers.{number_of};
ghost use Rattle.xt_compile.specs.first.Tree.{radix_of};
ghost use Rattle.xt_compile.specs.first.Tree.{Gives, based_of, width_of};

use crate::first::tokens::FormError;
use vl_lex::{capped_value, wrapped_value};
use xt_base::MAX_WIDTH;

/// The number as a width in bits, if it is one.
fn width_of(number: u64) -> Result<u32, FormError>
    ensures { Gives result (width_of number) }
{
    match u32::try_from(number) {
        Ok(width) if width >= 1 && width <= MAX_WIDTH => Ok(width),
        _ => Err(FormError::OutOfForm),
    }
}

/// The width in bits that a decimal number says as a size.
pub fn size(token: &[u8]) -> Result<u32, FormError>
    ensures { Gives result (width_of (number_of 10 token.now)) }
{
    width_of(capped_value(10, token))
}

/// The width in bits of a range from a decimal number down to 0.
pub fn range_width(token: &[u8]) -> Result<u32, FormError>
    ensures { Gives result (width_of (suc (number_of 10 token.now))) }
{
    width_of(capped_value(10, token).saturating_add(1))
}

/// The value of a based number modulo 2 to the power of 64, of which a width takes the lowest bits; None where the token
/// is no number of base 16 or 10 without a sign.
pub fn based_value(token: &[u8]) -> Option<u64>
    ensures { result ≡ option_map (λ n. n % 2 ^ 64) (based_of token.now) }
{
    let (quote, rest) = token.split_first()?;
    let (letter, digits) = rest.split_first()?;
    if *quote != b'\'' {
        return None;
    }
    let radix = radix(*letter)?;
    Some(wrapped_value(radix, digits))
}

/// The radix of a base.
fn radix(letter: u8) -> Option<u64>
    ensures { result ≡ radix_of letter }
{
    match letter {
        b'h' | b'H' => Some(16),
        b'd' | b'D' => Some(10),
        _ => None,
    }
}
