//! What the addresses of a segment without nodes are.
ghost use Rattle.std.specs.Prelude.{◌≡◌, ℤ, pos, ◌-ℤ◌};
ghost use Rattle.bytes_core.specs.Value.{wrapped};
ghost use Rattle.materialise.specs.Beyond.{moved_value, moved_link, beyond_end, step_beyond, emptied_value, value_after};

use graph::{Graph, Links, Target, Value};

/// A constant or an address, moved by a number of bytes with a sign, which is given modulo 2^64.
#[tactic(auto, using(register_steps::proofs::Moved::plain_moved, register_steps::proofs::Moved::offset_moved))]
fn moved_value(value: Value, bytes: u64) -> Value
    ensures { (by : ℤ) → wrapped by ≡ bytes → result ≡ moved_value value by }
{
    match value {
        Value::Const { number, .. } => Value::Const {
            number: number.wrapping_add(bytes),
            size: 8,
        },
        Value::Number { size } => Value::Number { size },
        Value::Any => Value::Any,
        Value::Address {
            object,
            offset,
            target,
        } => Value::Address {
            object,
            offset: offset.cast_unsigned().wrapping_add(bytes).cast_signed(),
            target,
        },
    }
}

/// How far an offset lies behind a place, modulo 2^64.
fn behind(offset: i64, place: u32) -> u64
    ensures { wrapped (offset -ℤ pos place) ≡ result }
{
    offset.cast_unsigned().wrapping_sub(place as u64)
}

/// What lies beyond an end, moved by how far an offset lies behind a place.
fn moved_link(graph: &Graph, link: u32, offset: i64, place: u32) -> Value
    ensures { result ≡ moved_link graph.now link (offset -ℤ pos place) }
{
    match graph.value(link) {
        None => Value::Any,
        Some(value) => moved_value(*value, behind(offset, place)),
    }
}

/// The address of an end without a node.
fn beyond_end(graph: &Graph, links: &Links, value: Value, target: Target, offset: i64) -> Value
    ensures { result ≡ beyond_end graph.now links.now value target offset }
{
    match target {
        Target::Region => value,
        Target::First => moved_link(graph, links.next_value, offset, links.head),
        Target::Last => moved_link(graph, links.prev_value, offset, links.back),
        Target::Each => Value::Const { number: 0, size: 8 },
    }
}

/// A value where the segment with a key has no nodes.
fn step_beyond(graph: &Graph, key: u32, links: &Links, value: Value) -> Value
    ensures { result ≡ step_beyond graph.now key links.now value }
{
    match value {
        Value::Address {
            object,
            offset,
            target,
        } => {
            if object == key {
                beyond_end(graph, links, value, target, offset)
            } else {
                value
            }
        }
        _ => value,
    }
}

/// A value where the segment with a key has no nodes, also where what lies beyond one end is an address of the other end.
pub(crate) fn emptied_value(graph: &Graph, key: u32, links: &Links, value: Value) -> Value
    ensures { result ≡ emptied_value graph.now key links.now value }
{
    step_beyond(graph, key, links, step_beyond(graph, key, links, value))
}

/// What the value with a key becomes.
pub(crate) fn value_after(graph: &Graph, key: u32, links: &Links, at: u32) -> Value
    ensures { result ≡ value_after graph.now key links.now at }
{
    match graph.value(at) {
        None => Value::Any,
        Some(value) => emptied_value(graph, key, links, *value),
    }
}
