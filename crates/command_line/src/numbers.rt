ghost use Rattle.std.specs.Prelude.{◌≡◌, ◌≤◌, ◌<◌, ◌+◌, ◌-◌, ◌*◌, length, true, option_copied};
ghost use Rattle.std.specs.List.{list_all};
ghost use Rattle.cbase.specs.Bytes.{is_digit};
ghost use Rattle.command_line.specs.Numbers.{number_in, number_or, decimal};

/// Whether each byte is a decimal digit.
fn are_digits(bytes: &[u8]) -> bool
    ensures { result ≡ list_all is_digit bytes.now }
{
    for byte in bytes {
        if *byte < b'0' || *byte > b'9' {
            return false;
        }
    }
    true
}

/// The value of decimal digits, given that of those before the last; it has at most nine.
fn with_digit(value: u32, digit: u8) -> u32
    requires small { value < 100000000 }
    requires digit { is_digit digit ≡ true }
    ensures { result ≡ 10 * value + (digit - 48) }
{
    10 * value + u32::from(digit - b'0')
}

/// The value of at most nine decimal digits.
fn value_of(digits: &[u8]) -> u32
    requires all { list_all is_digit digits.now ≡ true }
    requires few { length digits.now ≤ 9 }
    ensures { result ≡ decimal digits.now }
{
    let mut value: u32 = 0;
    for digit in digits {
        value = with_digit(value, *digit);
    }
    value
}

/// The number that the word spells in one to `digits` decimal digits, if it lies from `least` to `most`.
fn number_in(digits: usize, least: u32, most: u32, word: &[u8]) -> Option<u32>
    requires { digits ≤ 9 }
    ensures { result ≡ number_in digits least most word.now }
{
    if word.is_empty() {
        return None;
    }
    if word.len() > digits {
        return None;
    }
    if !are_digits(word) {
        return None;
    }
    let value = value_of(word);
    if value < least {
        return None;
    }
    if value > most {
        return None;
    }
    Some(value)
}

/// The number that an option's word spells, and `default` where the option was not given.
///
/// The word has one to `digits` decimal digits, and its value lies from `least` to `most`.
pub(crate) fn number_or(
    digits: usize,
    default: u32,
    least: u32,
    most: u32,
    word: Option<&str>,
) -> Option<u32>
    requires { digits ≤ 9 }
    ensures { result ≡ number_or digits default least most (option_copied word.entry) }
{
    match word {
        None => Some(default),
        Some(word) => number_in(digits, least, most, word.as_bytes()),
    }
}
