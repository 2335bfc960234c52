ghost use Rattle.std.specs.Prelude.{◌≡◌, ◌<◌};
ghost use Rattle.choices.specs.Reading.{digit_of, with_digit, end_of, hex_value};

/// A number of a line.
#[derive(Clone, Copy)]
pub(crate) enum Number {
    /// The number of an input.
    Input,
    /// The base of a block.
    Base,
}

/// The byte that ends a number.
pub(crate) fn end_of(number: Number) -> u8
    ensures { result ≡ end_of number }
{
    match number {
        Number::Input => b'\n',
        Number::Base => b' ',
    }
}

/// The value of a decimal digit.
pub(crate) fn digit_of(byte: u8) -> Option<u8>
    ensures { result ≡ digit_of byte }
{
    if byte < b'0' {
        return None;
    }
    if byte > b'9' {
        return None;
    }
    Some(byte - b'0')
}

/// The number with one digit more, where that is a number of 64 bits without leading zeros.
pub(crate) fn with_digit(value: u64, digit: u8) -> Option<u64>
    requires { digit < 10 }
    ensures { result ≡ with_digit value digit }
{
    if value == 0 {
        return None;
    }
    let wide = 10 * u128::from(value) + u128::from(digit);
    if wide > u128::from(u64::MAX) {
        return None;
    }
    Some(wide as u64)
}

/// The value of a lower-case hexadecimal digit.
pub(crate) fn hex_value(byte: u8) -> Option<u8>
    ensures { result ≡ hex_value byte }
{
    match byte {
        b'0'..=b'9' => Some(byte - b'0'),
        b'a'..=b'f' => Some(byte - b'a' + 10),
        _ => None,
    }
}
