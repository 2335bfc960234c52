ghost use Rattle.std.specs.Prelude.{◌≡◌, ◌*◌, ◌^◌, ◌<◌, Bool, pos, ◌*ℤ◌};
ghost use Rattle.std.specs.Int.{int_shr};
ghost use Rattle.arithmetic.specs.Size.{bytes};
ghost use Rattle.arithmetic.specs.Value.{bits, value};
ghost use Rattle.arithmetic.specs.Computing.{if_shifts};

use crate::bits::{all_ones, is_negative, lowest};
use crate::size::Size;

/// An integer shifted to the left by so many bits (C11 6.5.7p4); none by as many as it has, or by more.
#[tactic(auto, using(crate::proofs::Modulo::scaled_bits))]
pub fn shift_left(size: Size, number: u64, amount: u64) -> Option<u64>
    ensures { (signed : Bool) → result ≡ if_shifts (bytes size) amount
        (bits (bytes size) (value (bytes size) signed number *ℤ pos (2 ^ amount))) }
{
    if amount >= size.bits() {
        return None;
    }
    Some(lowest(number << amount, size))
}

/// An integer shifted to the right by so many bits, those above filled with its sign (C11 6.5.7p5); none by as
/// many as it has, or by more.
pub fn shift_right(size: Size, signed: bool, number: u64, amount: u64) -> Option<u64>
    ensures { result ≡ if_shifts (bytes size) amount
        (bits (bytes size) (int_shr (value (bytes size) signed number) amount)) }
{
    if amount >= size.bits() {
        return None;
    }
    let low = lowest(number, size);
    if is_negative(number, size, signed) {
        let ones = all_ones(size);
        return Some(ones - ((ones - low) >> amount));
    }
    Some(low >> amount)
}
