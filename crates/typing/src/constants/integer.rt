ghost use Rattle.std.specs.Prelude.{◌≡◌, ◌≤◌, ◌<◌, ◌^◌, pos, length};
ghost use Rattle.std.specs.List.{prefix_len, find};
ghost use Rattle.typing.specs.constants.Types.{types};
ghost use Rattle.typing.specs.constants.Meanings.{Integer, constant_of};
ghost use Rattle.typing.specs.constants.Deciding.{is_before_suffix, integer_in, behind_zero, unsuffixed, integer, fits, told};

use crate::constants::base::Base;
use crate::constants::digits::{are_digits, number};
use crate::constants::integer_type::types;
use crate::constants::meaning::{Constant, Meaning};
use crate::constants::suffix::{Suffix, suffix_of};
use cbase::Abi;

/// What bytes mean as an integer constant.
#[tactic(auto, unfolding(crate::specs::constants::Deciding::integer))]
pub(crate) fn integer(spelling: &[u8], abi: Abi) -> Meaning
    ensures { result ≡ told abi (integer spelling.now) }
{
    let (front, ending) = spelling.split_at(suffix_start(spelling));
    match suffix_of(ending) {
        None => Meaning::NoConstant,
        Some(suffix) => unsuffixed(front, suffix, abi),
    }
}

/// How many bytes stand before the first that a suffix has.
fn suffix_start(bytes: &[u8]) -> usize
    ensures count { result ≡ prefix_len is_before_suffix bytes.now }
    ensures inside { result ≤ length bytes.now }
{
    for (index, byte) in bytes.iter().enumerate() {
        if matches!(*byte, b'u' | b'U' | b'l' | b'L') {
            return index;
        }
    }
    bytes.len()
}

/// What bytes mean as a constant whose suffix stands behind them.
fn unsuffixed(bytes: &[u8], suffix: Suffix, abi: Abi) -> Meaning
    ensures { result ≡ told abi (unsuffixed bytes.now suffix) }
{
    match bytes {
        [] => Meaning::NoConstant,
        [b'0', b'x' | b'X', digits @ ..] => integer_in(Base::Hexadecimal, suffix, digits, abi),
        [b'0', ..] => integer_in(Base::Octal, suffix, bytes, abi),
        _ => integer_in(Base::Decimal, suffix, bytes, abi),
    }
}

/// What bytes mean as digits of a base.
fn integer_in(base: Base, suffix: Suffix, digits: &[u8], abi: Abi) -> Meaning
    ensures { result ≡ told abi (integer_in base suffix digits.now) }
{
    let radix = base.radix();
    if !are_digits(radix, digits) {
        return Meaning::NoConstant;
    }
    match number(radix, digits) {
        None => Meaning::FitsNoType,
        Some(number) => of_first_type(base, suffix, number, abi),
    }
}

/// The first type of the list that has the number, with that value.
fn of_first_type(base: Base, suffix: Suffix, number: u64, abi: Abi) -> Meaning
    ensures { result ≡ fits (constant_of abi (Integer base suffix number)) }
{
    for ctype in types(base, suffix) {
        if ctype.has(number, abi) {
            return Meaning::Known(Constant {
                bytes: ctype.bytes(abi),
                signed: ctype.is_signed(),
                bits: number,
            });
        }
    }
    Meaning::FitsNoType
}
