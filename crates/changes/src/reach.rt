//! Where an access through a value leads.
ghost use Rattle.std.specs.Prelude.{◌≡◌, ◌+◌, ◌≤◌, true, false, not, pos, Some, IfSome, IfNone};
ghost use Rattle.std.specs.Option.{option_map_or};
ghost use Rattle.bytes_core.specs.Access.{is_within};
ghost use Rattle.graph.specs.Maps.{object_at};
ghost use Rattle.changes.specs.Reaching.{number_kind, is_constant_of, is_number_at, tells_apart, is_excluded, are_excluded, has_live_object, object_reach, reach_of};

use graph::{Graph, Object, Pair, Value};

/// Where an access leads, or which faults it may meet.
#[derive(Clone, Copy)]
pub enum Reach {
    /// There is no value.
    Nothing,
    /// It meets this fault.
    Fault(u8),
    /// It leads through some number.
    Number {
        /// Whether that may be below 4,096, where an access is one through a null pointer.
        small: bool,
    },
    /// It leads through any word.
    Anything {
        /// Whether there is a live object, of which it may be the address.
        live: bool,
    },
    /// It leads to bytes of a live object.
    Room {
        /// The key of the object.
        key: u32,
        /// The first byte.
        from: u32,
    },
}

/// Where in an object of this size so many bytes from an offset on begin, if they lie in it.
fn start_within(size: u32, offset: i64, count: u32) -> Option<u32>
    ensures start { IfSome result (λ from. offset ≡ pos from) }
    ensures inside { IfSome result (λ from. is_within size offset count ≡ true) }
    ensures outside { IfNone result (is_within size offset count ≡ false) }
{
    if offset < 0 {
        return None;
    }
    if offset > size as i64 {
        return None;
    }
    let from = offset as u32;
    if count > size - from {
        return None;
    }
    Some(from)
}

/// The fault of an access through a number.
fn number_kind(number: u64) -> u8
    ensures { result ≡ number_kind number }
{
    if number < 4096 { 1 } else { 4 }
}

/// Where an access to an object leads.
fn object_reach(object: &Object, key: u32, offset: i64, count: u32) -> Reach
    ensures { result ≡ object_reach (Some object.now) key offset count }
{
    if !object.live {
        return Reach::Fault(3);
    }
    match start_within(object.size, offset, count) {
        None => Reach::Fault(2),
        Some(from) => Reach::Room { key, from },
    }
}

/// Where an access to the object with a key leads.
fn key_reach(graph: &Graph, key: u32, offset: i64, count: u32) -> Reach
    ensures { result ≡ object_reach (object_at graph.now.objects key) key offset count }
{
    match graph.object(key) {
        None => Reach::Fault(3),
        Some(object) => object_reach(object, key, offset, count),
    }
}

/// Whether the value with a key is this constant.
fn is_number_at(graph: &Graph, number: u64, key: u32) -> bool
    ensures { result ≡ is_number_at graph.now number key }
{
    match graph.value(key) {
        Some(Value::Const { number: other, .. }) => *other == number,
        _ => false,
    }
}

/// Whether a pair says that the value with a key is not this number.
fn tells_apart(graph: &Graph, key: u32, number: u64, pair: &Pair) -> bool
    ensures { result ≡ tells_apart graph.now key number pair.now }
{
    if pair.left == key {
        if is_number_at(graph, number, pair.right) {
            return true;
        }
    }
    if pair.right == key {
        is_number_at(graph, number, pair.left)
    } else {
        false
    }
}

/// Whether a pair says that the value with a key is not this number.
pub fn is_excluded(graph: &Graph, key: u32, number: u64) -> bool
    ensures { result ≡ is_excluded graph.now key number }
{
    let mut left = graph.unequal();
    while let [first, rest @ ..] = left {
        if tells_apart(graph, key, number, first) {
            return true;
        }
        left = rest;
    }
    false
}

/// Whether pairs say that the value with a key is none of the numbers below 4,096.
#[tactic(auto, using(crate::proofs::Excluding::one_left, crate::proofs::Excluding::one_more, crate::proofs::Excluding::none_yet, crate::proofs::Excluding::all_done))]
fn is_large(graph: &Graph, key: u32) -> bool
    ensures { result ≡ are_excluded graph.now key 4096 }
{
    for number in 0..4096u64 {
        if !is_excluded(graph, key, number) {
            return false;
        }
    }
    true
}

/// Whether there is an object with a key and it lives.
fn is_live(graph: &Graph, key: u32) -> bool
    ensures { result ≡ option_map_or (λ object. object.live) (object_at graph.now.objects key) false }
{
    match graph.object(key) {
        None => false,
        Some(object) => object.live,
    }
}

/// Whether there is a live object.
#[tactic(auto, using(crate::proofs::Excluding::live_next, crate::proofs::Excluding::live_done))]
fn has_live_object(graph: &Graph) -> bool
    ensures { result ≡ has_live_object graph.now }
{
    for key in 0..graph.object_count() {
        if is_live(graph, key) {
            return true;
        }
    }
    false
}

/// Where an access through the value with a key leads.
///
/// It takes time in proportion to the objects where that may be any word. Where it is a number it goes through the unequal pairs, once for
/// each constant from 0 on that they exclude, at most 4,096 times; else it takes a look at one object.
pub fn reach_of(graph: &Graph, key: u32, count: u32) -> Reach
    ensures { result ≡ reach_of graph.now key count }
{
    match graph.value(key) {
        None => Reach::Nothing,
        Some(Value::Const { number, .. }) => Reach::Fault(number_kind(*number)),
        Some(Value::Number { .. }) => Reach::Number {
            small: !is_large(graph, key),
        },
        Some(Value::Any) => Reach::Anything {
            live: has_live_object(graph),
        },
        Some(Value::Address { object, offset, .. }) => key_reach(graph, *object, *offset, count),
    }
}
