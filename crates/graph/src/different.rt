//! Whether unequal pairs stand once each. They are sorted for it; where memory for that is wanting, and where two are the same, each
//! is compared with each.
ghost use Rattle.std.specs.Prelude.{◌≡◌, true, nat_lt};
ghost use Rattle.std.specs.List.{list_all};
ghost use Rattle.graph.specs.PairCodes.{pair_code};
ghost use Rattle.graph.specs.Points.{neighbours};
ghost use Rattle.graph.specs.WellFormed.{are_different, differs_from};

use crate::parts::Pair;
use std::alloc::Global;

/// Whether no two of these pairs are of the same two values.
pub(crate) fn are_different(alloc: Global, pairs: &[Pair]) -> bool
    ensures { result ≡ are_different pairs.now }
{
    if have_codes(alloc, pairs) {
        return true;
    }
    all_differ(pairs)
}

/// Whether the codes of these pairs differ. Where memory is wanting, this is not known.
fn have_codes(alloc: Global, pairs: &[Pair]) -> bool
    ensures { result ≡ true → are_different pairs.now ≡ true }
{
    match Vec::from_slice(alloc, pairs) {
        Ok(mut sorted) => {
            sorted.sort_unstable_by_key(|pair| pair_code(*pair));
            codes_ascend(sorted.as_slice())
        }
        Err(_) => false,
    }
}

/// A number that tells a pair from each other of two different values: the smaller key, and behind it the greater.
fn pair_code(pair: Pair) -> u64
    ensures { result ≡ pair_code pair }
{
    let left = pair.left as u64;
    let right = pair.right as u64;
    if left <= right {
        left * 4_294_967_296 + right
    } else {
        right * 4_294_967_296 + left
    }
}

/// Whether the code of each pair is below that of the next one.
fn codes_ascend(pairs: &[Pair]) -> bool
    ensures codes { result ≡ neighbours (λ one other. nat_lt (pair_code one) (pair_code other)) pairs.now }
{
    let mut left = pairs;
    while let [first, rest @ ..] = left {
        if let [second, ..] = rest {
            if pair_code(*first) >= pair_code(*second) {
                return false;
            }
        }
        left = rest;
    }
    true
}

/// Whether no two of these pairs are of the same two values, with each compared with each.
fn all_differ(pairs: &[Pair]) -> bool
    ensures { result ≡ are_different pairs.now }
{
    let mut left = pairs;
    while let [first, rest @ ..] = left {
        if !is_new(first, rest) {
            return false;
        }
        left = rest;
    }
    true
}

/// Whether a pair differs from all of these.
fn is_new(pair: &Pair, others: &[Pair]) -> bool
    ensures { result ≡ list_all (differs_from pair.now) others.now }
{
    let mut left = others;
    while let [first, rest @ ..] = left {
        if !differs_from(pair, first) {
            return false;
        }
        left = rest;
    }
    true
}

/// Whether two pairs are not of the same two values.
fn differs_from(one: &Pair, other: &Pair) -> bool
    ensures { result ≡ differs_from one.now other.now }
{
    if one.left == other.left {
        if one.right == other.right {
            return false;
        }
    }
    if one.left == other.right {
        return one.right != other.left;
    }
    true
}
