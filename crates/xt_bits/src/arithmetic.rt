//! Arithmetic, comparisons, bitwise operators and reductions.
ghost use Rattle.std.specs.Prelude.{◌≡◌, ◌≢◌};
ghost use Rattle.xt_bits.specs.Word.{is_negative};
ghost use Rattle.xt_bits.specs.Operators.{add_of, sub_of, mul_of, neg_of, div_of, rem_of, eq_of, lt_of, and_of, or_of, xor_of, not_of, all_ones_of, any_of, odd_of};

use crate::Bits;
use xt_base::{Item, MAX_WIDTH};

impl Bits {
    /// The sum.
    #[tactic(auto, using(crate::proofs::Numbers::mod_max))]
    pub fn add(self, other: Bits) -> Bits
        requires { self.width ≡ other.width }
        ensures { result ≡ add_of self other }
    {
        Bits::new(self.width, self.value.wrapping_add(other.value))
    }

    /// The difference.
    #[tactic(auto, using(crate::proofs::Integers::difference))]
    pub fn sub(self, other: Bits) -> Bits
        requires { self.width ≡ other.width }
        ensures { result ≡ sub_of self other }
    {
        Bits::new(self.width, self.value.wrapping_sub(other.value))
    }

    /// The product.
    #[tactic(auto, using(crate::proofs::Numbers::mod_max))]
    pub fn mul(self, other: Bits) -> Bits
        requires { self.width ≡ other.width }
        ensures { result ≡ mul_of self other }
    {
        Bits::new(self.width, self.value.wrapping_mul(other.value))
    }

    /// The number with the other sign.
    #[tactic(auto, using(crate::proofs::Integers::negative))]
    pub fn neg(self) -> Bits
        ensures { result ≡ neg_of self }
    {
        Bits::new(self.width, self.value.wrapping_neg())
    }

    /// The bits that are in both.
    pub fn and(self, other: Bits) -> Bits
        requires { self.width ≡ other.width }
        ensures { result ≡ and_of self other }
    {
        Bits::new(self.width, self.value & other.value)
    }

    /// The bits that are in one or both.
    pub fn or(self, other: Bits) -> Bits
        requires { self.width ≡ other.width }
        ensures { result ≡ or_of self other }
    {
        Bits::new(self.width, self.value | other.value)
    }

    /// The bits that are in just one.
    pub fn xor(self, other: Bits) -> Bits
        requires { self.width ≡ other.width }
        ensures { result ≡ xor_of self other }
    {
        Bits::new(self.width, self.value ^ other.value)
    }

    /// Each bit turned over.
    #[tactic(auto, using(crate::proofs::Vectors::complement))]
    pub fn not(self) -> Bits
        ensures { result ≡ not_of self }
    {
        Bits::new(self.width, !self.value)
    }

    /// Whether the values are the same.
    pub fn eq(self, other: Bits) -> bool
        requires { self.width ≡ other.width }
        ensures { result ≡ eq_of self other }
    {
        self.value == other.value
    }

    /// Whether this number is less than the other, both as signed or both as unsigned ones.
    pub fn lt(self, other: Bits, signed: bool) -> bool
        requires { self.width ≡ other.width }
        ensures { result ≡ lt_of self other signed }
    {
        if signed && self.is_negative() != other.is_negative() {
            self.is_negative()
        } else {
            self.value < other.value
        }
    }

    /// Whether each bit is 1.
    #[tactic(auto, using(crate::proofs::Numbers::ones_shr_max))]
    pub fn all_ones(self) -> bool
        ensures { result ≡ all_ones_of self }
    {
        self.value == Item::MAX >> (MAX_WIDTH - self.width)
    }

    /// Whether some bit is 1.
    pub fn any(self) -> bool
        ensures { result ≡ any_of self }
    {
        self.value != 0
    }

    /// Whether the number of bits that are 1 is odd.
    pub fn odd(self) -> bool
        ensures { result ≡ odd_of self }
    {
        self.value.count_ones() % 2 == 1
    }

    /// Whether the sign bit is up.
    pub(crate) fn is_negative(self) -> bool
        ensures { result ≡ is_negative self }
    {
        self.value >> (self.width - 1) == 1
    }
}
