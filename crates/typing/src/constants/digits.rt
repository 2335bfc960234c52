ghost use Rattle.std.specs.Prelude.{◌≡◌, ◌+◌, ◌*◌, ◌<◌, ◌^◌, nat_lt};
ghost use Rattle.std.specs.List.{list_all};
ghost use Rattle.std.specs.Option.{SomeIff};
ghost use Rattle.std.specs.Char.{digit_value};
ghost use Rattle.std.specs.Str.Parse.{digits_value};
ghost use Rattle.typing.specs.constants.Deciding.{are_digits};

/// Whether bytes are digits of a radix, at least one.
pub(crate) fn are_digits(radix: u64, bytes: &[u8]) -> bool
    ensures { result ≡ are_digits radix bytes.now }
{
    !bytes.is_empty() && have_digits(radix, bytes)
}

/// Whether all bytes are digits of a radix.
fn have_digits(radix: u64, bytes: &[u8]) -> bool
    ensures { result ≡ list_all (λ digit. nat_lt (digit_value digit) radix) bytes.now }
{
    bytes.iter().all(|byte| digit_value(*byte) < radix)
}

/// What digits are worth together, unless that is 2^64 or more.
#[tactic(auto, using(crate::proofs::constants::Numbers::number_goes_on, crate::proofs::constants::Numbers::number_exceeds, crate::proofs::constants::Numbers::number_ends))]
pub(crate) fn number(radix: u64, digits: &[u8]) -> Option<u64>
    requires { 0 < radix }
    ensures { SomeIff result (digits_value radix digits.now < 2 ^ 64) (digits_value radix digits.now) }
{
    let mut value: u64 = 0;
    for digit in digits {
        match followed(value, radix, *digit) {
            None => return None,
            Some(next) => value = next,
        }
    }
    Some(value)
}

/// A number with a digit behind it, unless that is 2^64 or more.
fn followed(value: u64, radix: u64, digit: u8) -> Option<u64>
    ensures { SomeIff result (value * radix + digit_value digit < 2 ^ 64) (value * radix + digit_value digit) }
{
    let product = value.checked_mul(radix)?;
    product.checked_add(digit_value(digit))
}

/// What a digit or a letter is worth: 36 for any other byte.
pub(crate) fn digit_value(byte: u8) -> u64
    ensures { result ≡ digit_value byte }
{
    match byte {
        b'0'..=b'9' => u64::from(byte - b'0'),
        b'A'..=b'Z' => u64::from(byte - b'A') + 10,
        b'a'..=b'z' => u64::from(byte - b'a') + 10,
        _ => 36,
    }
}
