//! Other edges and classes, or a value, in place of what a range of an object's bytes held.
ghost use Rattle.std.specs.Prelude.{◌≡◌, ◌+◌, ◌≤◌, ◌<◌, true, Some, map, length, replicate, slice_get, option_map, IfOk, IfSome, OnOk};
ghost use Rattle.std.specs.List.{list_all, AllPairs};
ghost use Rattle.graph.specs.Maps.{object_at};
ghost use Rattle.graph.specs.Sizes.{is_zero};
ghost use Rattle.graph.specs.WellFormed.{lies_in};
ghost use Rattle.graph.specs.Whole.{IsGraph};
ghost use Rattle.changes.specs.Parts.{replaced, with_object};
ghost use Rattle.changes.specs.Places.{IsRoom};
ghost use Rattle.changes.specs.Ranges.{class_for, with_range, written_object};

use crate::ranges::edges_around;
use cbase::{List, NoMemory};
use graph::{HasValue, KeyedObject, Object, Parts, Value};
use std::alloc::Global;

/// Whether a value is the constant 0.
pub fn is_zero(value: Value) -> bool
    ensures { result ≡ is_zero value }
{
    match value {
        Value::Const { number, .. } => number == 0,
        _ => false,
    }
}

/// The class of the bytes that hold a value.
pub fn class_for(value: Value) -> u8
    ensures class { result ≡ class_for value }
    ensures few { result ≤ 2 }
{
    match value {
        Value::Const { number, .. } => { if number == 0 { 0 } else { 1 } }
        Value::Number { .. } => 1,
        Value::Any => 2,
        Value::Address { .. } => 2,
    }
}

/// Puts other edges, and bytes of one class, into a range of an object.
fn put_into(
    alloc: Global,
    object: &mut Object,
    from: u32,
    count: u32,
    inside: &[HasValue],
    class: u8,
) -> Result<(), NoMemory>
    requires range { from + count ≤ length object.old.plane }
    requires small { from + count ≤ 65536 }
    requires class { class ≤ 2 }
    requires inside { list_all (lies_in 65536) object.old.edges ≡ true }
    ensures { OnOk result (object.new ≡ with_range object.old from count inside.now (replicate count class)) }
{
    object.edges = edges_around(alloc, object.edges.as_slice(), from, count, inside)?;
    object.plane.fill(from, count, class);
    Ok(())
}

/// Puts them into the object with a key, which is the place of its entry.
fn put_at(
    alloc: Global,
    objects: &mut Vec<KeyedObject>,
    key: u32,
    from: u32,
    count: u32,
    inside: &[HasValue],
    class: u8,
) -> Result<(), NoMemory>
    requires ascending { AllPairs (λ one other. one.key < other.key) objects.old.items }
    requires within { key < length objects.old.items }
    requires key { option_map (λ entry. entry.key) (slice_get objects.old.items key) ≡ Some key }
    requires object { object_at objects.old.items key ≡ option_map (λ entry. entry.object) (slice_get objects.old.items key) }
    requires range { IfSome (object_at objects.old.items key) (λ object. from + count ≤ length object.plane) }
    requires small { from + count ≤ 65536 }
    requires class { class ≤ 2 }
    requires inside { IfSome (object_at objects.old.items key) (λ object. list_all (lies_in 65536) object.edges ≡ true) }
    ensures { OnOk result (IfSome (object_at objects.old.items key) (λ object. objects.new.items ≡ map (replaced key (with_range object from count inside.now (replicate count class))) objects.old.items)) }
{
    put_into(
        alloc,
        &mut objects[key as usize].object,
        from,
        count,
        inside,
        class,
    )
}

/// A graph's parts with other edges, and bytes of one class, in a range of the object with a key.
pub fn put_range(
    alloc: Global,
    parts: Parts,
    key: u32,
    from: u32,
    count: u32,
    inside: &[HasValue],
    class: u8,
) -> Result<Parts, NoMemory>
    requires graph { IsGraph parts }
    requires room { IsRoom parts key from count }
    requires class { class ≤ 2 }
    ensures { IfOk result (λ after. IfSome (object_at parts.objects key) (λ object. after ≡ with_object key (with_range object from count inside.now (replicate count class)) parts)) }
{
    let Parts {
        objects,
        values,
        variables,
        registers,
        ports,
        unequal,
    } = parts;
    let mut objects = objects.into_vec();
    match put_at(alloc, &mut objects, key, from, count, inside, class) {
        Ok(()) => Ok(Parts {
            objects: List::from_vec(objects),
            values,
            variables,
            registers,
            ports,
            unequal,
        }),
        Err(error) => {
            drop(objects);
            Err(error)
        }
    }
}

/// A graph's parts with a value in place of what a range of the object with a key held.
pub fn write_object(
    alloc: Global,
    parts: Parts,
    key: u32,
    edge: HasValue,
    value: Value,
) -> Result<Parts, NoMemory>
    requires graph { IsGraph parts }
    requires room { IsRoom parts key edge.at edge.size }
    ensures { IfOk result (λ after. IfSome (object_at parts.objects key) (λ object. after ≡ with_object key (written_object object edge value) parts)) }
{
    let class = class_for(value);
    if is_zero(value) {
        put_range(alloc, parts, key, edge.at, edge.size as u32, &[], class)
    } else {
        put_range(alloc, parts, key, edge.at, edge.size as u32, &[edge], class)
    }
}
