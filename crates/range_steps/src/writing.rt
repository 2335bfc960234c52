//! What one range of an object says, said of a range of another.
ghost use Rattle.std.specs.Prelude.{◌≡◌, ◌+◌, ◌≤◌, ◌<◌, true, Some, map, length, take, drop, slice_get, option_map, IfOk, IfSome, OnOk};
ghost use Rattle.std.specs.List.{list_all, AllPairs};
ghost use Rattle.graph.specs.Maps.{object_at};
ghost use Rattle.graph.specs.WellFormed.{lies_in};
ghost use Rattle.graph.specs.Whole.{IsGraph};
ghost use Rattle.changes.specs.Parts.{replaced, with_object};
ghost use Rattle.changes.specs.Places.{IsRoom};
ghost use Rattle.changes.specs.Ranges.{with_range};

use cbase::{List, NoMemory};
use changes::edges_around;
use graph::{HasValue, KeyedObject, Object, Parts};
use planes::Plane;
use std::alloc::Global;

/// Gives a range of an object other edges, and the classes of as many bytes of a plane.
fn copy_into(
    alloc: Global,
    object: &mut Object,
    at: u32,
    count: u32,
    edges: &[HasValue],
    plane: &Plane,
    from: u32,
) -> Result<(), NoMemory>
    requires range { at + count ≤ length object.old.plane }
    requires source { from + count ≤ length plane.now }
    requires small { at + count ≤ 65536 }
    requires inside { list_all (lies_in 65536) object.old.edges ≡ true }
    ensures { OnOk result (object.new ≡ with_range object.old at count edges.now (take count (drop from plane.now))) }
{
    object.edges = edges_around(alloc, object.edges.as_slice(), at, count, edges)?;
    object.plane.copy_range(at, plane, from, count);
    Ok(())
}

/// Does so with the object that has a key, which is the place of its entry.
fn copy_at(
    alloc: Global,
    objects: &mut Vec<KeyedObject>,
    key: u32,
    at: u32,
    count: u32,
    edges: &[HasValue],
    plane: &Plane,
    from: u32,
) -> Result<(), NoMemory>
    requires ascending { AllPairs (λ one other. one.key < other.key) objects.old.items }
    requires within { key < length objects.old.items }
    requires key { option_map (λ entry. entry.key) (slice_get objects.old.items key) ≡ Some key }
    requires object { object_at objects.old.items key ≡ option_map (λ entry. entry.object) (slice_get objects.old.items key) }
    requires range { IfSome (object_at objects.old.items key) (λ object. at + count ≤ length object.plane) }
    requires source { from + count ≤ length plane.now }
    requires small { at + count ≤ 65536 }
    requires inside { IfSome (object_at objects.old.items key) (λ object. list_all (lies_in 65536) object.edges ≡ true) }
    ensures { OnOk result (IfSome (object_at objects.old.items key) (λ object. objects.new.items ≡ map (replaced key (with_range object at count edges.now (take count (drop from plane.now)))) objects.old.items)) }
{
    copy_into(
        alloc,
        &mut objects[key as usize].object,
        at,
        count,
        edges,
        plane,
        from,
    )
}

/// A graph's parts in which a range of the object with a key has other edges, and the classes of as many bytes of a plane.
pub(crate) fn copy_object(
    alloc: Global,
    parts: Parts,
    key: u32,
    at: u32,
    count: u32,
    edges: &[HasValue],
    plane: &Plane,
    from: u32,
) -> Result<Parts, NoMemory>
    requires graph { IsGraph parts }
    requires room { IsRoom parts key at count }
    requires source { from + count ≤ length plane.now }
    ensures { IfOk result (λ after. IfSome (object_at parts.objects key) (λ object. after ≡ with_object key (with_range object at count edges.now (take count (drop from plane.now))) parts)) }
{
    let Parts {
        objects,
        values,
        variables,
        registers,
        ports,
        unequal,
    } = parts;
    let mut objects = objects.into_vec();
    match copy_at(alloc, &mut objects, key, at, count, edges, plane, from) {
        Ok(()) => Ok(Parts {
            objects: List::from_vec(objects),
            values,
            variables,
            registers,
            ports,
            unequal,
        }),
        Err(error) => {
            drop(objects);
            Err(error)
        }
    }
}
