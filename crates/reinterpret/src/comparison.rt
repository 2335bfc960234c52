//! What a graph knows of whether two values are the same.
ghost use Rattle.std.specs.Prelude.{◌≡◌, ◌&&◌, not, nat_eq, if◌then◌else◌};
ghost use Rattle.std.specs.Ordering.{int_eq};
ghost use Rattle.bytes_core.specs.Value.{is_inside};
ghost use Rattle.graph.specs.WellFormed.{differs_from};
ghost use Rattle.reinterpret.specs.Comparing.{is_noted, is_inside_live, unsure, null_compared, values_compared, compared};

use changes::is_excluded;
use graph::{Graph, Pair, Target, Value};

/// What is known of whether two values are the same.
#[derive(Clone, Copy)]
pub enum Comparison {
    /// They are.
    Same,
    /// They are not.
    Different,
    /// They are two numbers, and may be the same or not.
    Either {
        /// The key of one of them: of the constant, if one is a constant.
        kept: u32,
        /// The key of the other one.
        other: u32,
    },
    /// They are one word, of which little is known.
    Itself,
    /// Nothing is known.
    Unknown,
}

/// Whether a pair is of the values with two keys.
fn is_of(pair: &Pair, one: u32, other: u32) -> bool
    ensures { result ≡ not (differs_from (record { left = one; right = other }) pair.now) }
{
    if one == pair.left {
        if other == pair.right {
            return true;
        }
    }
    if one == pair.right {
        other == pair.left
    } else {
        false
    }
}

/// Whether a pair says that the values with two keys differ.
fn is_noted(graph: &Graph, one: u32, other: u32) -> bool
    ensures { result ≡ is_noted graph.now one other }
{
    let mut left = graph.unequal();
    while let [first, rest @ ..] = left {
        if is_of(first, one, other) {
            return true;
        }
        left = rest;
    }
    false
}

/// Whether an offset is inside an object of this size.
fn is_inside(size: u32, offset: i64) -> bool
    ensures { result ≡ is_inside size offset }
{
    if offset < 0 {
        return false;
    }
    offset < size as i64
}

/// Whether a value is the address of a byte of a live object.
fn is_inside_live(graph: &Graph, value: Value) -> bool
    ensures { result ≡ is_inside_live graph.now value }
{
    match value {
        Value::Address { object, offset, .. } => match graph.object(object) {
            None => false,
            Some(found) => {
                if found.live {
                    is_inside(found.size, offset)
                } else {
                    false
                }
            }
        },
        Value::Const { .. } => false,
        Value::Number { .. } => false,
        Value::Any => false,
    }
}

/// What is known where the values tell nothing.
fn unsure(left: u32, right: u32) -> Comparison
    ensures { result ≡ unsure left right }
{
    if left == right {
        Comparison::Itself
    } else {
        Comparison::Unknown
    }
}

/// What is known of a constant and an address.
fn null_compared(graph: &Graph, left: u32, right: u32, number: u64, value: Value) -> Comparison
    ensures { result ≡ null_compared graph.now left right number value }
{
    if number == 0 {
        if is_inside_live(graph, value) {
            return Comparison::Different;
        }
    }
    unsure(left, right)
}

/// What is known of a constant and another value.
fn constant_compared(
    graph: &Graph,
    left: u32,
    right: u32,
    number: u64,
    size: u8,
    other: Value,
) -> Comparison
    ensures { result ≡ values_compared graph.now left right (Value.Const number size) other }
{
    match other {
        Value::Const { number: second, .. } => {
            if number == second {
                Comparison::Same
            } else {
                Comparison::Different
            }
        }
        Value::Number { .. } => {
            if is_excluded(graph, right, number) {
                Comparison::Different
            } else {
                Comparison::Either {
                    kept: left,
                    other: right,
                }
            }
        }
        Value::Any => unsure(left, right),
        Value::Address { .. } => null_compared(graph, left, right, number, other),
    }
}

/// What is known of two numbers that are not constant.
fn numbers_compared(graph: &Graph, left: u32, right: u32) -> Comparison
    ensures { result ≡ (if nat_eq left right then Comparison.Same else (if is_noted graph.now left right then Comparison.Different else Comparison.Either left right)) }
{
    if left == right {
        return Comparison::Same;
    }
    if is_noted(graph, left, right) {
        return Comparison::Different;
    }
    Comparison::Either {
        kept: left,
        other: right,
    }
}

/// What is known of a number that is not constant and another value.
fn number_compared(graph: &Graph, left: u32, right: u32, size: u8, other: Value) -> Comparison
    ensures { result ≡ values_compared graph.now left right (Value.Number size) other }
{
    match other {
        Value::Const { number, .. } => {
            if is_excluded(graph, left, number) {
                Comparison::Different
            } else {
                Comparison::Either {
                    kept: right,
                    other: left,
                }
            }
        }
        Value::Number { .. } => numbers_compared(graph, left, right),
        Value::Any => unsure(left, right),
        Value::Address { .. } => unsure(left, right),
    }
}

/// What is known of two addresses.
fn addresses_compared(
    graph: &Graph,
    left: u32,
    right: u32,
    one: Value,
    other: Value,
    is_same: bool,
) -> Comparison
    ensures { result ≡ (if is_inside_live graph.now one && is_inside_live graph.now other then (if is_same then Comparison.Same else Comparison.Different) else unsure left right) }
{
    if is_inside_live(graph, one) {
        if is_inside_live(graph, other) {
            if is_same {
                return Comparison::Same;
            }
            return Comparison::Different;
        }
    }
    unsure(left, right)
}

/// Whether two places are one.
fn is_same_place(object: u32, second: u32, offset: i64, place: i64) -> bool
    ensures { result ≡ (nat_eq object second && int_eq offset place) }
{
    if object == second {
        offset == place
    } else {
        false
    }
}

/// What is known of an address and another value.
fn address_compared(
    graph: &Graph,
    left: u32,
    right: u32,
    object: u32,
    offset: i64,
    target: Target,
    other: Value,
) -> Comparison
    ensures { result ≡ values_compared graph.now left right (Value.Address object offset target) other }
{
    let one = Value::Address {
        object,
        offset,
        target,
    };
    match other {
        Value::Const { number, .. } => null_compared(graph, left, right, number, one),
        Value::Number { .. } => unsure(left, right),
        Value::Any => unsure(left, right),
        Value::Address {
            object: second,
            offset: place,
            ..
        } => {
            let is_same = is_same_place(object, second, offset, place);
            addresses_compared(graph, left, right, one, other, is_same)
        }
    }
}

/// What is known of two values.
fn values_compared(graph: &Graph, left: u32, right: u32, one: Value, other: Value) -> Comparison
    ensures { result ≡ values_compared graph.now left right one other }
{
    match one {
        Value::Const { number, size } => constant_compared(graph, left, right, number, size, other),
        Value::Number { size } => number_compared(graph, left, right, size, other),
        Value::Any => unsure(left, right),
        Value::Address {
            object,
            offset,
            target,
        } => address_compared(graph, left, right, object, offset, target, other),
    }
}

/// What is known of whether the values with two keys are the same.
///
/// It goes through the unequal pairs once where one is a number that is not constant, and else takes a look at two objects.
pub(crate) fn compared(graph: &Graph, left: u32, right: u32) -> Comparison
    ensures { result ≡ compared graph.now left right }
{
    match graph.value(left) {
        None => Comparison::Unknown,
        Some(one) => match graph.value(right) {
            None => Comparison::Unknown,
            Some(other) => values_compared(graph, left, right, *one, *other),
        },
    }
}
