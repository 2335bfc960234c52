//! Whether values that the narrower graph tells apart are paired apart.
ghost use Rattle.std.specs.Prelude.{◌≡◌, ◌↔◌, ◌<◌, [], true, None, Some, IfOk, OnOk, length, slice_index_or, replicate};
ghost use Rattle.graph.specs.Meaning.{maps_of};
ghost use Rattle.graph.specs.Whole.{IsGraph};
ghost use Rattle.cover.specs.Covers.{AreApart, DifferFixed, IsOther, IsPairOf, known};
ghost use Rattle.cover.specs.Found.{pairing_of};
ghost use Rattle.cover.specs.Checked.{AreFitting, AreApartKept, ArePairsApart, IsApartBy};

use crate::content::Content;
use crate::edges::content_of;
use crate::found::{Found, are_equal, content_with};
use cbase::NoMemory;
use graph::{Graph, Pair, Value};
use std::alloc::Global;

/// What is known of a value of the wider graph: its own number, or what it is paired with.
fn known(found: &Found, wide: &Graph, key: u32) -> Option<Content>
    ensures { result ≡ known (maps_of wide.now) (pairing_of found.now) key }
{
    match wide.value(key) {
        Some(Value::Const { number, size }) => Some(Content::Fixed {
            number: *number,
            size: *size,
        }),
        _ => {
            if key as usize >= found.values.len() {
                return None;
            }
            content_with(found, key)
        }
    }
}

/// Whether these are two plain numbers that differ.
fn differ(one: Content, other: Content) -> bool
    ensures { (result ≡ true) ↔ DifferFixed one other }
{
    match one {
        Content::Fixed { number, .. } => differs_from(number, other),
        _ => false,
    }
}

/// Whether a content is a plain number other than this one.
fn differs_from(number: u64, other: Content) -> bool
    ensures { (result ≡ true) ↔ IsOther number other }
{
    match other {
        Content::Fixed { number: next, .. } => number != next,
        _ => false,
    }
}

/// Whether these are the contents of an unequal pair, in whatever order.
fn is_pair_of(narrow: &Graph, one: Content, other: Content, pair: Pair) -> bool
    ensures { (result ≡ true) ↔ IsPairOf (maps_of narrow.now) one other pair }
{
    let left = content_of(narrow, pair.left);
    let right = content_of(narrow, pair.right);
    (are_equal(one, left) && are_equal(other, right))
        || (are_equal(one, right) && are_equal(other, left))
}

/// Whether two contents are an unequal pair of the narrower graph, or numbers that differ.
fn are_apart(narrow: &Graph, one: Content, other: Content) -> bool
    ensures { (result ≡ true) ↔ AreApart (maps_of narrow.now) one other }
{
    if differ(one, other) {
        return true;
    }
    let pairs = narrow.unequal();
    let mut at = 0;
    while at < pairs.len() {
        if is_pair_of(narrow, one, other, pairs[at]) {
            return true;
        }
        at += 1;
    }
    false
}

/// Whether what is known of the two values of a pair, if it is, is apart.
fn pair_is_apart(found: &Found, wide: &Graph, narrow: &Graph, pair: Pair) -> bool
    ensures { (result ≡ true) ↔ IsApartBy (maps_of wide.now) (maps_of narrow.now) (pairing_of found.now) pair }
{
    let one = match known(found, wide, pair.left) {
        Some(one) => one,
        None => return true,
    };
    let other = match known(found, wide, pair.right) {
        Some(other) => other,
        None => return true,
    };
    are_apart(narrow, one, other)
}

/// Whether what is known of the values of unequal pairs is apart.
pub(crate) fn pairs_are_apart(found: &Found, wide: &Graph, narrow: &Graph) -> bool
    ensures { (result ≡ true) ↔ ArePairsApart (maps_of wide.now) (maps_of narrow.now) (pairing_of found.now) }
{
    let pairs = wide.unequal();
    let mut at = 0;
    while at < pairs.len() {
        if !pair_is_apart(found, wide, narrow, pairs[at]) {
            return false;
        }
        at += 1;
    }
    true
}
