//! Vectors joined, brought to another width, and read and written in part.
ghost use Rattle.std.specs.Prelude.{◌≡◌, ◌+◌, ◌≤◌, ◌<◌, ℕ, pos, ◌+ℤ◌, ◌-ℤ◌};
ghost use Rattle.std.specs.Int.{bit_at};
ghost use Rattle.xt_bits.specs.Word.{bit_of};
ghost use Rattle.xt_bits.specs.Operators.{concat_of, extend_of, select_of, replace_of};

use crate::Bits;
use crate::shifts::{shifted_left, shifted_right};
use xt_base::{Item, MAX_WIDTH};

impl Bits {
    /// The two joined, the other as the low bits.
    #[tactic(auto, using(crate::proofs::Vectors::joined))]
    pub fn concat(self, low: Bits) -> Bits
        requires { self.width + low.width ≤ MAX_WIDTH }
        ensures { result ≡ concat_of self low }
    {
        Bits::new(self.width + low.width, self.value << low.width | low.value)
    }

    /// Brought to a width: longer by copies of the sign bit, where signed, or by zeros, or cut to the low bits.
    #[tactic(auto, using(crate::proofs::Vectors::extend_negative, crate::proofs::Vectors::extend_positive))]
    pub fn extend(self, width: u32, signed: bool) -> Bits
        requires positive { 1 ≤ width }
        requires within { width ≤ MAX_WIDTH }
        ensures { result ≡ extend_of self width signed }
    {
        if signed && self.is_negative() {
            Bits::new(width, self.not().value).not()
        } else {
            Bits::new(width, self.value)
        }
    }

    /// As many bits as the width says from bit `low` on, with 0 for each that lies outside of the vector.
    pub fn select(self, low: i128, width: u32) -> Bits
        requires positive { 1 ≤ width }
        requires within { width ≤ MAX_WIDTH }
        ensures { result ≡ select_of self low width }
    {
        Bits::new(width, self.lowered(low))
    }

    /// The vector with the part written from bit `low` on; each bit that lies outside of the vector is skipped.
    pub fn replace(self, low: i128, part: Bits) -> Bits
        ensures { result ≡ replace_of self low part }
    {
        let ones = Bits::new(part.width, Item::MAX).raised(low);
        Bits::new(self.width, self.value & !ones | part.raised(low))
    }

    /// The bits from bit `by` on.
    fn lowered(self, by: i128) -> Item
        ensures { (i : ℕ) → i < MAX_WIDTH → bit_at result i ≡ bit_of self (by +ℤ pos i) }
    {
        if by < 0 {
            shifted_left(self.value, by.unsigned_abs())
        } else {
            shifted_right(self.value, by as u128)
        }
    }

    /// The bits with the lowest at bit `by`.
    fn raised(self, by: i128) -> Item
        ensures { (i : ℕ) → i < MAX_WIDTH → bit_at result i ≡ bit_of self (pos i -ℤ by) }
    {
        if by < 0 {
            shifted_right(self.value, by.unsigned_abs())
        } else {
            shifted_left(self.value, by as u128)
        }
    }
}
