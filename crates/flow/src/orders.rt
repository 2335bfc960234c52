ghost use Rattle.std.specs.Prelude.{◌≡◌, nat_eq, map};
ghost use Rattle.std.specs.List.{list_any};
ghost use Rattle.flow.specs.Deciding.{are_among};
ghost use Rattle.flow.specs.Valid.{are_distinct, ascend};

use crate::flow_graph::Width;

/// Whether a number is among these.
pub fn is_among(number: u32, numbers: &[u32]) -> bool
    ensures { result ≡ list_any (nat_eq number) numbers.now }
{
    numbers.iter().any(|other| number == *other)
}

/// Whether each of these numbers is among those.
pub fn are_among(those: &[u32], numbers: &[u32]) -> bool
    ensures { result ≡ are_among those.now numbers.now }
{
    numbers.iter().all(|number| is_among(*number, those))
}

/// Whether numbers are distinct. It takes time in proportion to the square of how many they are.
pub fn are_distinct(mut numbers: &[u32]) -> bool
    ensures { result ≡ are_distinct numbers.entry.now }
{
    while let Some((first, rest)) = numbers.split_first() {
        if is_among(*first, rest) {
            return false;
        }
        numbers = rest;
    }
    true
}

/// Whether numbers ascend.
pub fn ascend(numbers: &[u32]) -> bool
    ensures { result ≡ ascend numbers.now }
{
    let Some((mut last, mut rest)) = numbers.split_first() else {
        return true;
    };
    while let Some((next, others)) = rest.split_first() {
        if *last >= *next {
            return false;
        }
        last = next;
        rest = others;
    }
    true
}

/// Whether the registers of widths ascend.
pub fn registers_ascend(widths: &[Width]) -> bool
    ensures { result ≡ ascend (map (λ width. width.register) widths.now) }
{
    let Some((mut last, mut rest)) = widths.split_first() else {
        return true;
    };
    while let Some((next, others)) = rest.split_first() {
        if last.register >= next.register {
            return false;
        }
        last = next;
        rest = others;
    }
    true
}
