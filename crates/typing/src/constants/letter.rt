ghost use Rattle.std.specs.Prelude.{◌≡◌, ◌<◌, option_map};
ghost use Rattle.typing.specs.constants.Characters.{simple_escape};
ghost use Rattle.typing.specs.constants.Meanings.{Letter, constant_of};
ghost use Rattle.typing.specs.constants.Deciding.{code_in, octal_escape, escape, character, before_quote, letter, fits, told};

use crate::constants::digits::{are_digits, digit_value, number};
use crate::constants::integer_type::IntegerType;
use crate::constants::meaning::{Constant, Meaning};
use arithmetic::{Size, convert};
use cbase::Abi;

/// What bytes mean that stand behind the first quote of a constant.
#[tactic(auto, unfolding(crate::specs::constants::Deciding::letter))]
pub(crate) fn letter(others: &[u8], abi: Abi) -> Meaning
    ensures { result ≡ told abi (letter others.now) }
{
    match before_quote(others) {
        None => Meaning::NoConstant,
        Some(bytes) => character(bytes, abi),
    }
}

/// What stands before a quote at the end.
fn before_quote(bytes: &[u8]) -> Option<&[u8]>
    ensures { option_map (λ before. before.now) result ≡ before_quote bytes.now }
{
    if bytes.is_empty() || bytes[bytes.len() - 1] != b'\'' {
        return None;
    }
    Some(&bytes[..bytes.len() - 1])
}

/// What bytes between quotes mean.
fn character(bytes: &[u8], abi: Abi) -> Meaning
    ensures { result ≡ told abi (option_map Letter (character bytes.now)) }
{
    match bytes {
        [b'\\', others @ ..] => escape(others, abi),
        [byte] if *byte != b'\'' && *byte != b'\n' => of_code(u64::from(*byte), abi),
        _ => Meaning::NoConstant,
    }
}

/// What bytes behind a `\` mean.
fn escape(bytes: &[u8], abi: Abi) -> Meaning
    ensures { result ≡ told abi (option_map Letter (escape bytes.now)) }
{
    match bytes {
        [] => Meaning::NoConstant,
        [b'0'..=b'7', ..] => octal_escape(bytes, abi),
        [b'x', digits @ ..] => in_digits(16, digits, abi),
        [byte] => of_simple_escape(*byte, abi),
        _ => Meaning::NoConstant,
    }
}

/// What bytes behind a `\` mean that begin with an octal digit.
fn octal_escape(bytes: &[u8], abi: Abi) -> Meaning
    ensures { result ≡ told abi (option_map Letter (octal_escape bytes.now)) }
{
    if bytes.len() > 3 {
        return Meaning::NoConstant;
    }
    in_digits(8, bytes, abi)
}

/// What digits of an escape mean.
fn in_digits(radix: u64, digits: &[u8], abi: Abi) -> Meaning
    requires { 0 < radix }
    ensures { result ≡ told abi (option_map Letter (code_in radix digits.now)) }
{
    if !are_digits(radix, digits) {
        return Meaning::NoConstant;
    }
    match number(radix, digits) {
        None => Meaning::FitsNoType,
        Some(code) => of_code(code, abi),
    }
}

/// What a letter or mark behind a `\` means.
fn of_simple_escape(byte: u8, abi: Abi) -> Meaning
    ensures { result ≡ told abi (option_map Letter (simple_escape byte)) }
{
    match byte {
        b'\'' | b'"' | b'?' | b'\\' => of_code(u64::from(byte), abi),
        b'a' => of_code(7, abi),
        b'b' => of_code(8, abi),
        b'f' => of_code(12, abi),
        b'n' => of_code(10, abi),
        b'r' => of_code(13, abi),
        b't' => of_code(9, abi),
        b'v' => of_code(11, abi),
        _ => Meaning::NoConstant,
    }
}

/// The constant of the character with that number: an int, with the value of a byte as a char.
fn of_code(code: u64, abi: Abi) -> Meaning
    ensures { result ≡ fits (constant_of abi (Letter code)) }
{
    if code > 255 {
        return Meaning::FitsNoType;
    }
    Meaning::Known(Constant {
        bytes: IntegerType::Int.bytes(abi),
        signed: true,
        bits: convert(Size::One, true, Size::Four, code),
    })
}
