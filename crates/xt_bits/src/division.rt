//! Quotients and remainders.
ghost use Rattle.std.specs.Prelude.{◌≡◌, ◌≢◌, ◌≤◌, ◌<◌, ◌^◌, pos, neg_ℤ, int_lt, unsigned_abs, if◌then◌else◌};
ghost use Rattle.xt_bits.specs.Word.{int_word, integer_of};
ghost use Rattle.xt_bits.specs.Operators.{div_of, rem_of};

use crate::Bits;
use xt_base::{Item, MAX_WIDTH};

impl Bits {
    /// The quotient, cut towards zero; as signed numbers the least one divided by -1 is itself.
    pub fn div_const(self, by: Bits, signed: bool) -> Bits
        requires widths { self.width ≡ by.width }
        requires nonzero { by.value ≢ 0 }
        ensures { result ≡ div_of self by signed }
    {
        let quotient = self.magnitude(signed) / by.magnitude(signed);
        let below_zero = self.is_below_zero(signed) != by.is_below_zero(signed);
        Bits::from_magnitude(self.width, quotient, below_zero)
    }

    /// The remainder of that quotient, which has the sign of this number.
    pub fn rem_const(self, by: Bits, signed: bool) -> Bits
        requires widths { self.width ≡ by.width }
        requires nonzero { by.value ≢ 0 }
        ensures { result ≡ rem_of self by signed }
    {
        let remainder = self.magnitude(signed) % by.magnitude(signed);
        Bits::from_magnitude(self.width, remainder, self.is_below_zero(signed))
    }

    /// The number of a magnitude, or that number below 0.
    #[tactic(auto, using(crate::proofs::Integers::small_negative))]
    fn from_magnitude(width: u32, magnitude: Item, below_zero: bool) -> Bits
        requires positive { 1 ≤ width }
        requires within { width ≤ MAX_WIDTH }
        requires fits { magnitude < 2 ^ width }
        ensures { result ≡ int_word width (if below_zero then neg_ℤ (pos magnitude) else pos magnitude) }
    {
        let number = Bits::new(width, magnitude);
        if below_zero { number.neg() } else { number }
    }

    /// How far the number is from 0.
    #[tactic(auto, using(crate::proofs::Integers::magnitude_below))]
    fn magnitude(self, signed: bool) -> Item
        ensures value { result ≡ unsigned_abs (integer_of self signed) }
        ensures fits { result < 2 ^ self.width }
        ensures nonzero { self.value ≢ 0 → result ≢ 0 }
    {
        if self.is_below_zero(signed) {
            self.neg().value
        } else {
            self.value
        }
    }

    /// Whether the number is less than 0.
    fn is_below_zero(self, signed: bool) -> bool
        ensures { result ≡ int_lt (integer_of self signed) (pos 0) }
    {
        signed && self.is_negative()
    }
}
