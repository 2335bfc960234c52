//! `+`, `-` and `*`, which give the same bits with a sign and without.
ghost use Rattle.std.specs.Prelude.{◌≡◌, Bool, ◌+ℤ◌, ◌-ℤ◌, ◌*ℤ◌};
ghost use Rattle.arithmetic.specs.Size.{bytes};
ghost use Rattle.arithmetic.specs.Value.{bits, value};

use crate::bits::lowest;
use crate::size::Size;

/// The sum of two integers (C11 6.5.6p5).
#[tactic(auto, using(crate::proofs::Modulo::sum_bits))]
pub fn sum(size: Size, left: u64, right: u64) -> u64
    ensures { (signed : Bool) →
        result ≡ bits (bytes size) (value (bytes size) signed left +ℤ value (bytes size) signed right) }
{
    lowest(left.wrapping_add(right), size)
}

/// The left integer less the right one (C11 6.5.6p6).
#[tactic(auto, using(crate::proofs::Modulo::difference_bits))]
pub fn difference(size: Size, left: u64, right: u64) -> u64
    ensures { (signed : Bool) →
        result ≡ bits (bytes size) (value (bytes size) signed left -ℤ value (bytes size) signed right) }
{
    lowest(left.wrapping_sub(right), size)
}

/// The product of two integers (C11 6.5.5p4).
#[tactic(auto, using(crate::proofs::Modulo::product_bits))]
pub fn product(size: Size, left: u64, right: u64) -> u64
    ensures { (signed : Bool) →
        result ≡ bits (bytes size) (value (bytes size) signed left *ℤ value (bytes size) signed right) }
{
    lowest(left.wrapping_mul(right), size)
}
