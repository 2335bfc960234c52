//! What a graph holds, handed on without a copy.
ghost use Rattle.std.specs.Prelude.{◌≡◌, IfOk};
ghost use Rattle.graph.specs.Renaming.{objects_from, values_from};
ghost use Rattle.graph.specs.Whole.{entries_of};

use crate::contents::{Contents, Objects, Values};
use crate::parts::{KeyedObject, KeyedValue, Parts};
use cbase::{List, NoMemory};
use std::alloc::Global;

/// The same contents, with their keys.
pub(crate) fn keyed_contents(alloc: Global, contents: Contents) -> Result<Parts, NoMemory>
    ensures { IfOk result (λ parts. parts ≡ entries_of contents) }
{
    let Contents {
        objects,
        values,
        variables,
        registers,
        ports,
        unequal,
    } = contents;
    let objects = keyed_objects(alloc, objects)?;
    let values = match keyed_values(alloc, values) {
        Ok(values) => values,
        Err(error) => {
            drop(objects);
            return Err(error);
        }
    };
    Ok(Parts {
        objects,
        values,
        variables,
        registers,
        ports,
        unequal,
    })
}

/// The objects with their keys.
#[tactic(auto, using(crate::proofs::AtPlaces::objects_push))]
fn keyed_objects(alloc: Global, objects: Objects) -> Result<List<KeyedObject>, NoMemory>
    ensures { IfOk result (λ entries. entries ≡ objects_from 0 objects) }
{
    let items = objects.into_items(alloc)?;
    let mut entries = Vec::with_capacity(alloc, items.len())?;
    let mut key: u32 = 0;
    for object in items {
        entries.push(KeyedObject { key, object })?;
        key += 1;
    }
    Ok(List::from_vec(entries))
}

/// The values with their keys.
#[tactic(auto, using(crate::proofs::AtPlaces::values_push))]
fn keyed_values(alloc: Global, values: Values) -> Result<List<KeyedValue>, NoMemory>
    ensures { IfOk result (λ entries. entries ≡ values_from 0 values) }
{
    let items = values.into_items(alloc)?;
    let mut entries = Vec::with_capacity(alloc, items.len())?;
    let mut key: u32 = 0;
    for value in items {
        entries.push(KeyedValue { key, value })?;
        key += 1;
    }
    Ok(List::from_vec(entries))
}
