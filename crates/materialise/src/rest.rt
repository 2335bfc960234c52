//! What is left of a segment behind a node that is split off.
ghost use Rattle.std.specs.Prelude.{◌≡◌, [], map, OnOk};
ghost use Rattle.materialise.specs.SplitFirst.{rest_behind};
ghost use Rattle.materialise.specs.Splitting.{rest_entry};

use cbase::{List, NoMemory};
use graph::{KeyedObject, Object, Shape};

/// A segment of one node less at least, before which this value lies.
fn rest_behind(shape: Shape, before: u32) -> Shape
    ensures { result ≡ rest_behind before shape }
{
    match shape {
        Shape::Region => Shape::Region,
        Shape::Segment {
            twofold,
            head,
            next,
            prev,
            back,
            least,
            next_value,
            prev_value,
            node,
        } => Shape::Segment {
            twofold,
            head,
            next,
            prev,
            back,
            least: if least == 0 { 0 } else { least - 1 },
            next_value,
            prev_value: if twofold { before } else { prev_value },
            node,
        },
    }
}

/// The object that is left.
fn rest_object(object: Object, before: u32) -> Object
    ensures { result ≡ record object { shape = rest_behind before object.shape } }
{
    let Object {
        size,
        kind,
        live,
        shape,
        edges,
        plane,
    } = object;
    Object {
        size,
        kind,
        live,
        shape: rest_behind(shape, before),
        edges,
        plane,
    }
}

/// Puts objects into an empty list, and of the one with a key what is left.
pub(crate) fn push_rest(
    key: u32,
    before: u32,
    objects: List<KeyedObject>,
    kept: &mut List<KeyedObject>,
) -> Result<(), NoMemory>
    requires empty { kept.old ≡ [] }
    ensures { OnOk result (kept.new ≡ map (rest_entry key before) objects) }
{
    for entry in objects.into_vec() {
        if entry.key == key {
            kept.push(KeyedObject {
                key: entry.key,
                object: rest_object(entry.object, before),
            })?;
        } else {
            kept.push(entry)?;
        }
    }
    Ok(())
}
