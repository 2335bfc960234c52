ghost use Rattle.std.specs.Prelude.{◌≡◌, ◌+◌, true};
ghost use Rattle.std.specs.List.{list_all};
ghost use Rattle.flow.specs.Valid.{is_scalar_size, is_initial, is_initial_word};
ghost use Rattle.flow.specs.Deciding.{have_one_range, is_apart, are_apart, comes_before, are_in_order};

use crate::flow_graph::{Flow, Initial, InitialWord};
use crate::naming::{is_fixed, size_in};
use crate::sizes::{fits_size, is_scalar_size};

/// Whether a scalar of a size may hold this.
fn is_initial_word(flow: &Flow, size: u8, word: InitialWord) -> bool
    requires { is_scalar_size size ≡ true }
    ensures { result ≡ is_initial_word flow.now size word }
{
    match word {
        InitialWord::Number(number) => fits_size(size, number),
        InitialWord::Address { variable, .. } => size == 8 && is_fixed(flow, variable),
    }
}

/// Whether a scalar lies in the bytes of a static variable, and may hold what it does.
pub fn is_initial(flow: &Flow, scalar: &Initial) -> bool
    ensures { result ≡ is_initial flow.now scalar.now }
{
    is_fixed(flow, scalar.variable)
        && is_scalar_size(u32::from(scalar.size))
        && end_of(scalar) <= u64::from(size_in(flow, scalar.variable))
        && is_initial_word(flow, scalar.size, scalar.word)
}

/// Where in its variable a scalar ends, in bytes.
fn end_of(scalar: &Initial) -> u64
    ensures { result ≡ scalar.now.at + scalar.now.size }
{
    u64::from(scalar.at) + u64::from(scalar.size)
}

/// Whether two scalars have one range.
fn have_one_range(one: &Initial, other: &Initial) -> bool
    ensures { result ≡ have_one_range one.now other.now }
{
    one.at == other.at && one.size == other.size
}

/// Whether two scalars are of two variables, have one range, or share no byte.
fn is_apart(one: &Initial, other: &Initial) -> bool
    ensures { result ≡ is_apart one.now other.now }
{
    one.variable != other.variable
        || have_one_range(one, other)
        || end_of(one) <= u64::from(other.at)
        || end_of(other) <= u64::from(one.at)
}

/// Whether a scalar is apart from each of these.
fn is_apart_from(one: &Initial, others: &[Initial]) -> bool
    ensures { result ≡ list_all (is_apart one.now) others.now }
{
    others.iter().all(|other| is_apart(one, other))
}

/// Whether each two scalars are apart. It takes time in proportion to the square of how many they are.
fn are_apart(mut scalars: &[Initial]) -> bool
    ensures { result ≡ are_apart scalars.entry.now }
{
    while let Some((first, rest)) = scalars.split_first() {
        if !is_apart_from(first, rest) {
            return false;
        }
        scalars = rest;
    }
    true
}

/// Whether a scalar is listed before another in the order of variables and of bytes.
fn comes_before(one: &Initial, other: &Initial) -> bool
    ensures { result ≡ comes_before one.now other.now }
{
    if one.variable != other.variable {
        return one.variable < other.variable;
    }
    have_one_range(one, other) || end_of(one) <= u64::from(other.at)
}

/// Whether scalars are listed in the order of variables and of bytes.
fn are_in_order(scalars: &[Initial]) -> bool
    ensures { result ≡ are_in_order scalars.now }
{
    let Some((mut last, mut rest)) = scalars.split_first() else {
        return true;
    };
    while let Some((next, others)) = rest.split_first() {
        if !comes_before(last, next) {
            return false;
        }
        last = next;
        rest = others;
    }
    true
}

/// Whether each two scalars of a variable have equal ranges, or ranges that share no byte.
///
/// Where they are listed in the order of variables and of bytes it takes time in proportion to how many they are,
/// else to the square of that.
pub fn are_initials_apart(scalars: &[Initial]) -> bool
    ensures { result ≡ are_apart scalars.now }
{
    are_in_order(scalars) || are_apart(scalars)
}
