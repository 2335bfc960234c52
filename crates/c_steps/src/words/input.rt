//! Inputs of a type.
ghost use Rattle.std.specs.Prelude.{◌≡◌, nat_lt};
ghost use Rattle.c_machine.specs.Choosing.{count_of};

use arithmetic::Size;
use c_machine::{Kind, WholeType};

/// Whether a number may be an input of a type: any number of its bytes, of `_Bool` 0 or 1, of a pointer any number. A value of another type
/// has no input.
pub fn is_input(kind: Kind, number: u64) -> bool
    ensures { result ≡ nat_lt number (count_of kind) }
{
    match kind {
        Kind::Integer(of) => is_integer(of, number),
        Kind::Pointer(_) => true,
        Kind::Array(_) | Kind::Struct(_) | Kind::Void => false,
    }
}

/// Whether a number is the bits of an integer of a type.
fn is_integer(of: WholeType, number: u64) -> bool
    ensures { result ≡ nat_lt number (count_of (Kind.Integer of)) }
{
    if of.get().truth {
        return number < 2;
    }
    match of.size() {
        Size::One => number < 0x100,
        Size::Two => number < 0x1_0000,
        Size::Four => number < 0x1_0000_0000,
        Size::Eight => true,
    }
}
