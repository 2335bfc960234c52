//! How the values of one neighbour stand in the other one.
ghost use Rattle.std.specs.Prelude.{◌≡◌, ◌++◌, ◌&&◌, ◌||◌, not, OnOk};
ghost use Rattle.std.specs.List.{list_all};
ghost use Rattle.graph.specs.WellFormed.{may_be_held};
ghost use Rattle.fold.specs.Linked.{key_in};
ghost use Rattle.fold.specs.Standing.{is_link_place, is_plain, is_same_target, is_same_word, is_constant_of, is_address_of, offset_of, own_in, own_standing, standing_of, standing_at, standing_beside, standing, is_barred, is_met, are_met, others};

use crate::fold::{Fold, Standing};
use crate::links::key_in;
use cbase::{List, NoMemory};
use graph::{Graph, HasValue, Target, Value};

/// Whether a place is one of a link.
fn is_link_place(fold: &Fold, at: u32) -> bool
    ensures { result ≡ is_link_place fold.now at }
{
    if at == fold.next {
        return true;
    }
    fold.twofold && at == fold.prev
}

/// Puts the edges that are no links behind others.
pub(crate) fn push_others(
    fold: &Fold,
    edges: &[HasValue],
    kept: &mut List<HasValue>,
) -> Result<(), NoMemory>
    ensures { OnOk result (kept.new ≡ kept.old ++ others fold.now edges.now) }
{
    let mut left = edges;
    while let [first, rest @ ..] = left {
        if !is_link_place(fold, first.at) {
            kept.push(*first)?;
        }
        left = rest;
    }
    Ok(())
}

/// Whether a value is a plain number.
fn is_plain(value: Value) -> bool
    ensures { result ≡ is_plain value }
{
    match value {
        Value::Const { .. } => true,
        Value::Number { .. } => true,
        _ => false,
    }
}

/// Whether a value means one block, if any.
fn may_be_held(value: Value) -> bool
    ensures { result ≡ may_be_held value }
{
    match value {
        Value::Address { target, .. } => match target {
            Target::Each => false,
            _ => true,
        },
        _ => true,
    }
}

/// Whether two addresses mean one block of an object, the same one.
fn is_same_target(one: Target, other: Target) -> bool
    ensures { result ≡ is_same_target one other }
{
    match one {
        Target::Region => match other {
            Target::Region => true,
            _ => false,
        },
        Target::First => match other {
            Target::First => true,
            _ => false,
        },
        Target::Last => match other {
            Target::Last => true,
            _ => false,
        },
        Target::Each => false,
    }
}

/// Whether a value is this constant.
fn is_constant_of(number: u64, size: u8, value: Value) -> bool
    ensures { result ≡ is_constant_of number size value }
{
    match value {
        Value::Const {
            number: other,
            size: count,
        } => other == number && count == size,
        _ => false,
    }
}

/// Whether a value is this address of one node.
fn is_address_of(key: u32, place: i64, end: Target, value: Value) -> bool
    ensures { result ≡ is_address_of key place end value }
{
    match value {
        Value::Address {
            object,
            offset,
            target,
        } => {
            if object == key && offset == place {
                is_same_target(end, target)
            } else {
                false
            }
        }
        _ => false,
    }
}

/// Whether two values are one constant, or one address of one node.
fn is_same_word(one: Value, other: Value) -> bool
    ensures { result ≡ is_same_word one other }
{
    match one {
        Value::Const { number, size } => is_constant_of(number, size, other),
        Value::Address {
            object,
            offset,
            target,
        } => is_address_of(object, offset, target, other),
        _ => false,
    }
}

/// The offset of an own address.
fn own_in(key: u32, value: Value) -> Option<i64>
    ensures { result ≡ own_in key value }
{
    match value {
        Value::Address {
            object,
            offset,
            target,
        } => {
            if object == key {
                match target {
                    Target::Region => Some(offset),
                    Target::Each => Some(offset),
                    _ => None,
                }
            } else {
                None
            }
        }
        _ => None,
    }
}

/// How values that are not the same stand, by the offsets of own addresses.
fn own_standing(one: Option<i64>, other: Option<i64>, plain: bool) -> Standing
    ensures { result ≡ own_standing one other plain }
{
    match one {
        None => {
            if plain {
                Standing::Apart
            } else {
                Standing::Barred
            }
        }
        Some(offset) => match other {
            None => {
                if plain {
                    Standing::Apart
                } else {
                    Standing::Barred
                }
            }
            Some(place) => {
                if offset == place {
                    Standing::Own { offset }
                } else {
                    Standing::Barred
                }
            }
        },
    }
}

/// Whether a value of the first neighbour and one of the second are the same.
fn are_same(same: bool, one: Value, other: Value) -> bool
    ensures { result ≡ ((same && may_be_held one) || is_same_word one other) }
{
    if same {
        if may_be_held(one) {
            return true;
        }
    }
    is_same_word(one, other)
}

/// How a value of the first neighbour stands beside one of the second.
fn standing_of(fold: &Fold, same: bool, one: Value, other: Value) -> Standing
    ensures { result ≡ standing_of fold.now same one other }
{
    if are_same(same, one, other) {
        return Standing::Same;
    }
    let plain = is_plain(one) && is_plain(other);
    own_standing(own_in(fold.first, one), own_in(fold.second, other), plain)
}

/// How a value of the first neighbour stands beside what the second one holds at its place.
fn standing_beside(
    graph: &Graph,
    fold: &Fold,
    key: u32,
    one: Value,
    beside: Option<u32>,
) -> Standing
    ensures { result ≡ standing_beside graph.now fold.now key one beside }
{
    match beside {
        None => {
            if is_plain(one) {
                Standing::Apart
            } else {
                Standing::Barred
            }
        }
        Some(other) => match graph.value(other) {
            None => Standing::Barred,
            Some(value) => standing_of(fold, key == other, one, *value),
        },
    }
}

/// How an edge of the first neighbour stands in the second one, which has these edges.
pub(crate) fn standing(graph: &Graph, fold: &Fold, behind: &[HasValue], edge: &HasValue) -> Standing
    ensures { result ≡ standing graph.now fold.now behind.now edge.now }
{
    match graph.value(edge.value) {
        None => Standing::Barred,
        Some(one) => standing_beside(
            graph,
            fold,
            edge.value,
            *one,
            key_in(edge.at, edge.size, behind),
        ),
    }
}

fn is_barred(standing: Standing) -> bool
    ensures { result ≡ is_barred standing }
{
    match standing {
        Standing::Barred => true,
        _ => false,
    }
}

/// Whether no edge of the first neighbour is barred.
fn none_barred(graph: &Graph, fold: &Fold, before: &[HasValue], behind: &[HasValue]) -> bool
    ensures { result ≡ list_all (λ edge. not (is_barred (standing graph.now fold.now behind.now edge))) before.now }
{
    let mut left = before;
    while let [first, rest @ ..] = left {
        if is_barred(standing(graph, fold, behind, first)) {
            return false;
        }
        left = rest;
    }
    true
}

/// Whether an edge of the second neighbour holds a plain number, or the first one has an edge at its place.
fn is_met(graph: &Graph, before: &[HasValue], edge: &HasValue) -> bool
    ensures { result ≡ is_met graph.now before.now edge.now }
{
    let plain = match graph.value(edge.value) {
        None => false,
        Some(value) => is_plain(*value),
    };
    if plain {
        return true;
    }
    match key_in(edge.at, edge.size, before) {
        None => false,
        Some(_) => true,
    }
}

/// Whether this holds of each edge of the second neighbour.
fn all_met(graph: &Graph, before: &[HasValue], behind: &[HasValue]) -> bool
    ensures { result ≡ list_all (is_met graph.now before.now) behind.now }
{
    let mut left = behind;
    while let [first, rest @ ..] = left {
        if !is_met(graph, before, first) {
            return false;
        }
        left = rest;
    }
    true
}

/// Whether an address, or what may be one, stands in both at each of these places.
pub(crate) fn are_met(graph: &Graph, fold: &Fold, before: &[HasValue], behind: &[HasValue]) -> bool
    ensures { result ≡ are_met graph.now fold.now before.now behind.now }
{
    if none_barred(graph, fold, before, behind) {
        all_met(graph, before, behind)
    } else {
        false
    }
}
