//! Shifts by any amount.
ghost use Rattle.std.specs.Prelude.{◌≡◌, ◌*◌, ◌/◌, ◌%◌, ◌^◌};
ghost use Rattle.xt_bits.specs.Operators.{shl_of, shr_of, sar_of};

use crate::Bits;
use xt_base::{Item, MAX_WIDTH};

impl Bits {
    /// Shifted to the left by so many bits; zeros come in.
    #[tactic(auto, using(crate::proofs::Numbers::mod_max))]
    pub fn shl(self, by: Item) -> Bits
        ensures { result ≡ shl_of self by }
    {
        Bits::new(self.width, shifted_left(self.value, by as u128))
    }

    /// Shifted to the right by so many bits; zeros come in.
    pub fn shr(self, by: Item) -> Bits
        ensures { result ≡ shr_of self by }
    {
        Bits::new(self.width, shifted_right(self.value, by as u128))
    }

    /// Shifted to the right by so many bits; copies of the sign bit come in.
    #[tactic(auto, using(crate::proofs::Vectors::sar_negative, crate::proofs::Vectors::sar_positive))]
    pub fn sar(self, by: Item) -> Bits
        ensures { result ≡ sar_of self by }
    {
        if self.is_negative() {
            self.not().shr(by).not()
        } else {
            self.shr(by)
        }
    }
}

/// A number times a power of two, as far as an item holds it.
#[tactic(auto, using(crate::proofs::Numbers::shl_out))]
pub(crate) fn shifted_left(value: Item, by: u128) -> Item
    ensures { result ≡ value * 2 ^ by % 2 ^ MAX_WIDTH }
{
    if by < MAX_WIDTH as u128 {
        value << by
    } else {
        0
    }
}

/// A number divided by a power of two, rounded down.
#[tactic(auto, using(crate::proofs::Numbers::shr_out))]
pub(crate) fn shifted_right(value: Item, by: u128) -> Item
    ensures { result ≡ value / 2 ^ by }
{
    if by < MAX_WIDTH as u128 {
        value >> by
    } else {
        0
    }
}
