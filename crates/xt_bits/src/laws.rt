//! The operators that are defined bit by bit, and division, read as arithmetic on whole numbers.
//!
//! No function here does anything. Each reads a width, which brings in what every vector keeps.
ghost use Rattle.std.specs.Prelude.{◌≡◌, ◌≢◌, ◌≤◌, ◌<◌, ◌-◌, ◌/◌, ◌*◌, ◌^◌, pos, ◌+ℤ◌, ◌*ℤ◌, ◌≤ℤ◌, int_div, int_rem, unsigned_abs};
ghost use Rattle.std.specs.Int.{int_div_euclid};
ghost use Rattle.xt_bits.specs.Word.{word, int_word, signed_value, integer_of};
ghost use Rattle.xt_bits.specs.Operators.{not_of, extend_of, sar_of, select_of};

use crate::Bits;
use xt_base::MAX_WIDTH;

/// A complement is what the value lacks to all ones.
#[tactic(auto, using(crate::proofs::Readings::not_number))]
pub fn complement(a: Bits)
    ensures { not_of a ≡ word a.width (2 ^ a.width - 1 - a.value) }
{
    let _ = a.width;
}

/// A vector that is brought to another width stands for the same number, modulo 2 to the power of that width.
#[tactic(auto, using(crate::proofs::Readings::extend_number))]
pub fn extension(a: Bits, width: u32, signed: bool)
    requires positive { 1 ≤ width }
    requires within { width ≤ MAX_WIDTH }
    ensures { extend_of a width signed ≡ int_word width (integer_of a signed) }
{
    let _ = a.width;
}

/// A shift to the right that copies the sign bit divides the signed number by a power of two, rounding down.
#[tactic(auto, using(crate::proofs::Readings::sar_number))]
pub fn signed_shift(a: Bits, by: u128)
    ensures { sar_of a by ≡ int_word a.width (int_div_euclid (signed_value a) (pos (2 ^ by))) }
{
    let _ = a.width;
}

/// A part from some bit on is the value divided by a power of two.
#[tactic(auto, using(crate::proofs::Readings::select_number))]
pub fn part(a: Bits, low: u64, width: u32)
    ensures { select_of a (pos low) width ≡ word width (a.value / 2 ^ low) }
{
    let _ = a.width;
}

/// The quotient and the remainder make up the number that is divided; the remainder is smaller than the divisor, and has the sign of that number.
#[tactic(auto, using(crate::proofs::Readings::divided))]
pub fn division(a: Bits, b: Bits, signed: bool)
    requires { b.value ≢ 0 }
    ensures whole { let x = integer_of a signed in let y = integer_of b signed in
        int_div x y *ℤ y +ℤ int_rem x y ≡ x }
    ensures smaller { let x = integer_of a signed in let y = integer_of b signed in
        unsigned_abs (int_rem x y) < unsigned_abs y }
    ensures above { let x = integer_of a signed in
        pos 0 ≤ℤ x → pos 0 ≤ℤ int_rem x (integer_of b signed) }
    ensures below { let x = integer_of a signed in
        x ≤ℤ pos 0 → int_rem x (integer_of b signed) ≤ℤ pos 0 }
{
    let _ = b.width;
}
