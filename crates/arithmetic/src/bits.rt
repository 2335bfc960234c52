//! The bits of integers, and what they say of their values.
ghost use Rattle.std.specs.Prelude.{◌≡◌, ◌+◌, ◌%◌, ◌^◌, pos, int_lt, unsigned_abs};
ghost use Rattle.arithmetic.specs.Size.{bytes};
ghost use Rattle.arithmetic.specs.Value.{modulus, bits, value};

use crate::size::Size;

/// The lowest bytes of a number, as many as the size has.
pub fn lowest(number: u64, size: Size) -> u64
    ensures { result ≡ number % modulus (bytes size) }
{
    match size {
        Size::One => number % 0x100,
        Size::Two => number % 0x1_0000,
        Size::Four => number % 0x1_0000_0000,
        Size::Eight => number,
    }
}

/// The greatest number of a size, all of whose bits are set.
pub fn all_ones(size: Size) -> u64
    ensures { result + 1 ≡ modulus (bytes size) }
{
    match size {
        Size::One => 0xff,
        Size::Two => 0xffff,
        Size::Four => 0xffff_ffff,
        Size::Eight => 0xffff_ffff_ffff_ffff,
    }
}

/// Whether the value of an integer is negative.
pub fn is_negative(number: u64, size: Size, signed: bool) -> bool
    ensures { result ≡ int_lt (value (bytes size) signed number) (pos 0) }
{
    if signed {
        all_ones(size) / 2 < lowest(number, size)
    } else {
        false
    }
}

/// The absolute value of an integer.
pub fn magnitude(number: u64, size: Size, signed: bool) -> u64
    ensures { result ≡ unsigned_abs (value (bytes size) signed number) }
{
    let low = lowest(number, size);
    if is_negative(number, size, signed) {
        all_ones(size) - low + 1
    } else {
        low
    }
}

/// The bits of an integer's value at eight bytes: those above its own are those of its sign.
pub fn extended(number: u64, size: Size, signed: bool) -> u64
    ensures { result ≡ bits 8 (value (bytes size) signed number) }
{
    let low = lowest(number, size);
    if is_negative(number, size, signed) {
        u64::MAX - all_ones(size) + low
    } else {
        low
    }
}
