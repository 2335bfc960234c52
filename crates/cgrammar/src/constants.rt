ghost use Rattle.std.specs.Prelude.{◌≡◌, ◌≤◌, ◌||◌, nat_eq, length};
ghost use Rattle.std.specs.List.{list_any, list_all};
ghost use Rattle.std.specs.Str.{bytes_eq};
ghost use Rattle.cbase.specs.Bytes.{is_digit};
ghost use Rattle.ctokens.specs.Bytes.{is_octal_digit, is_hexadecimal_digit};
ghost use Rattle.cgrammar.specs.Constants.{is_hexadecimal, is_unsuffixed, suffixes};
ghost use Rattle.cgrammar.specs.ConstantParts.{is_before_suffix, digits_length, is_integer};

use crate::texts::is_one_of;

/// The suffixes of integer constants, with the empty one.
const SUFFIXES: [&'static str; 23] = [
    "", "u", "U", "l", "L", "ll", "LL", "ul", "uL", "Ul", "UL", "ull", "uLL", "Ull", "ULL", "lu",
    "lU", "Lu", "LU", "llu", "llU", "LLu", "LLU",
];

/// Whether bytes are an integer constant, however large (C11 6.4.4.1).
pub fn has_integer_parts(bytes: &[u8]) -> bool
    ensures { result ≡ is_integer bytes.now }
{
    let count = digits_length(bytes);
    if !is_unsuffixed(&bytes[..count]) {
        return false;
    }
    is_suffix(&bytes[count..])
}

/// How many bytes stand before the first that a suffix has.
fn digits_length(bytes: &[u8]) -> usize
    ensures count { result ≡ digits_length bytes.now }
    ensures inside { result ≤ length bytes.now }
{
    for (index, byte) in bytes.iter().enumerate() {
        if matches!(*byte, b'u' | b'U' | b'l' | b'L') {
            return index;
        }
    }
    bytes.len()
}

/// Whether bytes are a suffix of an integer constant.
fn is_suffix(bytes: &[u8]) -> bool
    ensures { result ≡ list_any (bytes_eq bytes.now) suffixes }
{
    is_one_of(SUFFIXES.as_slice(), bytes)
}

/// Whether bytes are an integer constant without its suffix.
fn is_unsuffixed(bytes: &[u8]) -> bool
    ensures { result ≡ is_unsuffixed bytes.now }
{
    match bytes {
        [] => false,
        [first, others @ ..] => {
            if *first != b'0' {
                return is_digit(*first) && are_digits(others);
            }
            are_octal_digits(others) || is_hexadecimal(others)
        }
    }
}

/// Whether bytes are `x` or `X` and hexadecimal digits behind it.
fn is_hexadecimal(bytes: &[u8]) -> bool
    ensures { result ≡ is_hexadecimal bytes.now }
{
    match bytes {
        [] => false,
        [mark, digits @ ..] => is_hexadecimal_mark(*mark)
            && !digits.is_empty()
            && are_hexadecimal_digits(digits),
    }
}

/// `x` or `X`.
fn is_hexadecimal_mark(byte: u8) -> bool
    ensures { result ≡ (nat_eq byte 120 || nat_eq byte 88) }
{
    matches!(byte, b'x' | b'X')
}

/// `0` to `9`.
fn is_digit(byte: u8) -> bool
    ensures { result ≡ is_digit byte }
{
    matches!(byte, b'0'..=b'9')
}

/// `0` to `7`.
fn is_octal_digit(byte: u8) -> bool
    ensures { result ≡ is_octal_digit byte }
{
    matches!(byte, b'0'..=b'7')
}

/// `0` to `9`, `A` to `F` or `a` to `f`.
fn is_hexadecimal_digit(byte: u8) -> bool
    ensures { result ≡ is_hexadecimal_digit byte }
{
    matches!(byte, b'0'..=b'9' | b'A'..=b'F' | b'a'..=b'f')
}

/// Whether all bytes are decimal digits.
fn are_digits(bytes: &[u8]) -> bool
    ensures { result ≡ list_all is_digit bytes.now }
{
    bytes.iter().all(|byte| is_digit(*byte))
}

/// Whether all bytes are octal digits.
fn are_octal_digits(bytes: &[u8]) -> bool
    ensures { result ≡ list_all is_octal_digit bytes.now }
{
    bytes.iter().all(|byte| is_octal_digit(*byte))
}

/// Whether all bytes are hexadecimal digits.
fn are_hexadecimal_digits(bytes: &[u8]) -> bool
    ensures { result ≡ list_all is_hexadecimal_digit bytes.now }
{
    bytes.iter().all(|byte| is_hexadecimal_digit(*byte))
}
