//! Unequal pairs of a graph, with one more, or with one value in place of another.
ghost use Rattle.std.specs.Prelude.{◌≡◌, ◌++◌, ◌∷◌, [], ◌&&◌, ◌||◌, not, map, IfOk, OnOk};
ghost use Rattle.std.specs.List.{filter, fold, list_all};
ghost use Rattle.graph.specs.Sizes.{is_number, is_constant};
ghost use Rattle.graph.specs.WellFormed.{are_numbers, may_be_unequal, is_unequal_pair, differs_from};
ghost use Rattle.changes.specs.Merging.{names_key, merged_pair, noted, merged_pairs, with_unequal};

use crate::merge::merged_key;
use cbase::{List, NoMemory};
use graph::{Graph, Pair, Parts, Value};

/// Whether a value is a plain number of this size.
fn is_number(value: Value, size: u8) -> bool
    ensures { result ≡ is_number value size }
{
    match value {
        Value::Const { size: other, .. } => other == size,
        Value::Number { size: other } => other == size,
        Value::Any => false,
        Value::Address { .. } => false,
    }
}

/// Whether a value is a constant.
fn is_constant(value: Value) -> bool
    ensures { result ≡ is_constant value }
{
    match value {
        Value::Const { .. } => true,
        Value::Number { .. } => false,
        Value::Any => false,
        Value::Address { .. } => false,
    }
}

/// Whether both values are plain numbers of this size.
fn are_numbers(one: Value, other: Value, size: u8) -> bool
    ensures { result ≡ are_numbers one other size }
{
    if is_number(one, size) {
        is_number(other, size)
    } else {
        false
    }
}

/// Whether two values are constants.
fn are_constants(one: Value, other: Value) -> bool
    ensures { result ≡ (is_constant one && is_constant other) }
{
    if is_constant(one) {
        is_constant(other)
    } else {
        false
    }
}

/// Whether both values are plain numbers of one size for which there are pairs.
fn are_paired_numbers(one: Value, other: Value) -> bool
    ensures { result ≡ (are_numbers one other 4 || are_numbers one other 8) }
{
    if are_numbers(one, other, 4) {
        true
    } else {
        are_numbers(one, other, 8)
    }
}

/// Whether a pair may be of two values.
fn may_be_unequal(one: Value, other: Value) -> bool
    ensures { result ≡ may_be_unequal one other }
{
    if are_paired_numbers(one, other) {
        !are_constants(one, other)
    } else {
        false
    }
}

/// Whether a pair may be one of a graph.
pub fn is_unequal_pair(graph: &Graph, pair: Pair) -> bool
    ensures { result ≡ is_unequal_pair graph.now pair }
{
    if pair.left == pair.right {
        return false;
    }
    match graph.value(pair.left) {
        None => false,
        Some(one) => match graph.value(pair.right) {
            None => false,
            Some(other) => may_be_unequal(*one, *other),
        },
    }
}

/// Whether two pairs are not of the same two values.
fn differs_from(one: Pair, other: &Pair) -> bool
    ensures { result ≡ differs_from one other.now }
{
    if one.left == other.left {
        if one.right == other.right {
            return false;
        }
    }
    if one.left == other.right {
        one.right != other.left
    } else {
        true
    }
}

/// Whether a pair is none of these.
fn is_fresh(pair: Pair, pairs: &[Pair]) -> bool
    ensures { result ≡ list_all (differs_from pair) pairs.now }
{
    let mut left = pairs;
    while let [first, rest @ ..] = left {
        if !differs_from(pair, first) {
            return false;
        }
        left = rest;
    }
    true
}

/// Puts a pair behind others, if it may be one and is none of them yet.
fn note(graph: &Graph, pairs: &mut List<Pair>, pair: Pair) -> Result<(), NoMemory>
    ensures { OnOk result (pairs.new ≡ noted graph.now pairs.old pair) }
{
    if is_unequal_pair(graph, pair) {
        if is_fresh(pair, pairs.as_slice()) {
            pairs.push(pair)?;
        }
    }
    Ok(())
}

/// Whether a pair is one of the value with a key.
fn names_key(key: u32, pair: &Pair) -> bool
    ensures { result ≡ names_key key pair.now }
{
    if pair.left == key {
        true
    } else {
        pair.right == key
    }
}

/// Puts the pairs that are none of the value with a key behind others.
fn push_others(pairs: &[Pair], gone: u32, others: &mut List<Pair>) -> Result<(), NoMemory>
    ensures { OnOk result (others.new ≡ others.old ++ filter (λ pair. not (names_key gone pair)) pairs.now) }
{
    let mut left = pairs;
    while let [first, rest @ ..] = left {
        if !names_key(gone, first) {
            others.push(*first)?;
        }
        left = rest;
    }
    Ok(())
}

/// Notes the pairs of one value as pairs of another.
fn note_merged(
    graph: &Graph,
    pairs: &[Pair],
    kept: u32,
    gone: u32,
    done: &mut List<Pair>,
) -> Result<(), NoMemory>
    ensures { OnOk result (done.new ≡ fold (λ done pair. noted graph.now done (merged_pair kept gone pair)) done.old (filter (names_key gone) pairs.now)) }
{
    let mut left = pairs;
    while let [first, rest @ ..] = left {
        if names_key(gone, first) {
            let pair = Pair {
                left: merged_key(kept, gone, first.left),
                right: merged_key(kept, gone, first.right),
            };
            note(graph, done, pair)?;
        }
        left = rest;
    }
    Ok(())
}

/// Puts the pairs of a graph, with one value in place of another, into an empty list.
pub(crate) fn merge_pairs(
    graph: &Graph,
    kept: u32,
    gone: u32,
    merged: &mut List<Pair>,
) -> Result<(), NoMemory>
    requires empty { merged.old ≡ [] }
    ensures { OnOk result (merged.new ≡ merged_pairs graph.now kept gone graph.now.unequal) }
{
    let pairs = graph.unequal();
    push_others(pairs, gone, merged)?;
    note_merged(graph, pairs, kept, gone, merged)?;
    Ok(())
}

/// Parts in which two values are known to differ.
pub fn with_unequal(parts: Parts, one: u32, other: u32) -> Result<Parts, NoMemory>
    ensures { IfOk result (λ after. after ≡ with_unequal one other parts) }
{
    let mut after = parts;
    match after.unequal.push(Pair {
        left: one,
        right: other,
    }) {
        Ok(()) => Ok(after),
        Err(error) => {
            drop(after);
            Err(error)
        }
    }
}
