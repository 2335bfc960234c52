//! An object more.
ghost use Rattle.std.specs.Prelude.{◌≡◌, ◌<◌, ◌≤◌, length, IfOk, if◌then◌else◌};
ghost use Rattle.block_steps.specs.Blocks.{new_object, loss_beside};
ghost use Rattle.changes.specs.Parts.{with_object_more};

use bytes_core::BlockKind;
use cbase::NoMemory;
use graph::{Edges, Graph, KeyedObject, Object, Parts, Shape};
use heap_steps::may_lead_anywhere;
use planes::Plane;
use std::alloc::Global;

/// The class of the bytes of a new block: numbers, or zeros.
fn class_of(zeroed: bool) -> u8
    ensures class { result ≡ (if zeroed then 0 else 1) }
    ensures few { result ≤ 2 }
{
    if zeroed { 0 } else { 1 }
}

/// A live region of which no edge tells.
pub(crate) fn new_object(
    alloc: Global,
    kind: BlockKind,
    size: u32,
    zeroed: bool,
) -> Result<Object, NoMemory>
    requires { size ≤ 65536 }
    ensures { IfOk result (λ object. object ≡ new_object kind size zeroed) }
{
    let class = class_of(zeroed);
    match Plane::new(alloc, size, class) {
        Err(error) => Err(error),
        Ok(plane) => match Edges::of(alloc, &[]) {
            Err(error) => {
                drop(plane);
                Err(error)
            }
            Ok(edges) => Ok(Object {
                size,
                kind,
                live: true,
                shape: Shape::Region,
                edges,
                plane,
            }),
        },
    }
}

/// A graph's parts with an object more, behind all others. Its key is how many there were.
fn with_object(parts: Parts, object: Object) -> Result<Parts, NoMemory>
    requires few { length parts.objects < 4294967296 }
    ensures { IfOk result (λ after. after ≡ with_object_more object parts) }
{
    let mut after = parts;
    let key = after.objects.len() as u32;
    match after.objects.push(KeyedObject { key, object }) {
        Ok(()) => Ok(after),
        Err(error) => {
            drop(after);
            Err(error)
        }
    }
}

/// A graph's parts with a live region more, of which no edge tells.
pub(crate) fn with_new_object(
    alloc: Global,
    parts: Parts,
    kind: BlockKind,
    size: u32,
    zeroed: bool,
) -> Result<Parts, NoMemory>
    requires few { length parts.objects < 4294967296 }
    requires size { size ≤ 65536 }
    ensures { IfOk result (λ after. after ≡ with_object_more (new_object kind size zeroed) parts) }
{
    match new_object(alloc, kind, size, zeroed) {
        Err(error) => {
            drop(parts);
            Err(error)
        }
        Ok(object) => with_object(parts, object),
    }
}

/// What a new block beside a graph loses: that something may lead to it.
pub(crate) fn loss_beside(alloc: Global, graph: &Graph) -> Result<Option<u8>, NoMemory>
    ensures { IfOk result (λ loss. loss ≡ loss_beside graph.now) }
{
    match may_lead_anywhere(alloc, graph) {
        Err(error) => Err(error),
        Ok(true) => Ok(Some(3)),
        Ok(false) => Ok(None),
    }
}
