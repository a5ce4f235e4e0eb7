//! Numbers of a width: vectors of two-state bits and the operators on them.
#![tactic(auto)]

ghost use Rattle.std.specs.Prelude.{◌≡◌, ◌≤◌, ◌<◌, ◌^◌};
ghost use Rattle.xt_bits.specs.Word.{word};

mod arithmetic;
mod division;
pub mod laws;
mod parts;
mod shifts;

use std::marker::Model;
use xt_base::{Item, MAX_WIDTH};

/// A vector of `width` bits, from 1 to `MAX_WIDTH`, whose value is below 2 to the power of the width.
///
/// Contracts see it as the plain record `Word` of the two. No operation takes memory or refuses.
#[derive(Clone, Copy, Debug, PartialEq, Eq, Hash)]
pub struct Bits {
    width: u32,
    value: Item,
}

impl Model for Bits {
    ghost use Rattle.xt_bits.specs.Word.{Word, IsKept};

    ghost Value = { Word };

    ghost view = { λ b. record { width = b.width; value = b.value } };

    ghost invariant = { λ b. IsKept b.width b.value };

    ghost inverse = { λ w. record { width = w.width; value = w.value } };
}

impl Bits {
    /// The value modulo 2 to the power of the width.
    #[tactic(auto, using(crate::proofs::Numbers::masked, crate::proofs::Numbers::masked_below))]
    pub fn new(width: u32, value: Item) -> Bits
        requires positive { 1 ≤ width }
        requires within { width ≤ MAX_WIDTH }
        ensures { result ≡ word width value }
    {
        Bits {
            width,
            value: value & (Item::MAX >> (MAX_WIDTH - width)),
        }
    }

    /// The width in bits.
    pub fn width(self) -> u32
        ensures width { result ≡ self.width }
        ensures positive { 1 ≤ result }
        ensures within { result ≤ MAX_WIDTH }
    {
        self.width
    }

    /// The bits, read as a binary number.
    pub fn value(self) -> Item
        ensures value { result ≡ self.value }
        ensures fits { result < 2 ^ self.width }
    {
        self.value
    }
}
