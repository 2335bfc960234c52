//! An object that dies.
ghost use Rattle.std.specs.Prelude.{◌≡◌, ◌<◌, Some, map, length, slice_get, option_map, IfOk, IfSome, IsSome, OnOk};
ghost use Rattle.std.specs.List.{AllPairs};
ghost use Rattle.graph.specs.Maps.{object_at};
ghost use Rattle.graph.specs.Whole.{IsGraph};
ghost use Rattle.changes.specs.Dying.{died};
ghost use Rattle.changes.specs.Parts.{replaced, with_object};

use cbase::{List, NoMemory};
use graph::{Edges, KeyedObject, Object, Parts};
use planes::Plane;
use std::alloc::Global;

/// Ends an object: nothing is said of its bytes any more.
fn end_object(alloc: Global, object: &mut Object) -> Result<(), NoMemory>
    ensures { OnOk result (object.new ≡ died object.old) }
{
    object.edges = Edges::of(alloc, &[])?;
    object.plane = Plane::new(alloc, 0, 0)?;
    object.live = false;
    Ok(())
}

/// Ends the object with a key, which is the place of its entry.
fn end_at(alloc: Global, objects: &mut Vec<KeyedObject>, key: u32) -> Result<(), NoMemory>
    requires ascending { AllPairs (λ one other. one.key < other.key) objects.old.items }
    requires within { key < length objects.old.items }
    requires key { option_map (λ entry. entry.key) (slice_get objects.old.items key) ≡ Some key }
    requires object { object_at objects.old.items key ≡ option_map (λ entry. entry.object) (slice_get objects.old.items key) }
    ensures { OnOk result (IfSome (object_at objects.old.items key) (λ object. objects.new.items ≡ map (replaced key (died object)) objects.old.items)) }
{
    end_object(alloc, &mut objects[key as usize].object)
}

/// A graph's parts in which the object with a key is dead.
pub fn with_dead(alloc: Global, parts: Parts, key: u32) -> Result<Parts, NoMemory>
    requires graph { IsGraph parts }
    requires there { IsSome (object_at parts.objects key) }
    ensures { IfOk result (λ after. IfSome (object_at parts.objects key) (λ object. after ≡ with_object key (died object) parts)) }
{
    let Parts {
        objects,
        values,
        variables,
        registers,
        ports,
        unequal,
    } = parts;
    let mut objects = objects.into_vec();
    match end_at(alloc, &mut objects, key) {
        Ok(()) => Ok(Parts {
            objects: List::from_vec(objects),
            values,
            variables,
            registers,
            ports,
            unequal,
        }),
        Err(error) => {
            drop(objects);
            Err(error)
        }
    }
}
