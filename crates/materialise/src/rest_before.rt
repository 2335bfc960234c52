//! What is left of a segment before a node that is split off.
ghost use Rattle.std.specs.Prelude.{◌≡◌, [], map, OnOk};
ghost use Rattle.materialise.specs.SplitLast.{rest_before};
ghost use Rattle.materialise.specs.SplittingLast.{rest_before_entry};

use cbase::{List, NoMemory};
use graph::{KeyedObject, Object, Shape};

/// A segment of one node less at least, behind which this value lies.
fn rest_before(shape: Shape, behind: u32) -> Shape
    ensures { result ≡ rest_before behind shape }
{
    match shape {
        Shape::Region => Shape::Region,
        Shape::Segment {
            twofold,
            head,
            next,
            prev,
            back,
            least,
            next_value: _,
            prev_value,
            node,
        } => Shape::Segment {
            twofold,
            head,
            next,
            prev,
            back,
            least: if least == 0 { 0 } else { least - 1 },
            next_value: behind,
            prev_value,
            node,
        },
    }
}

/// The object that is left.
fn rest_object(object: Object, behind: u32) -> Object
    ensures { result ≡ record object { shape = rest_before behind object.shape } }
{
    let Object {
        size,
        kind,
        live,
        shape,
        edges,
        plane,
    } = object;
    Object {
        size,
        kind,
        live,
        shape: rest_before(shape, behind),
        edges,
        plane,
    }
}

/// Puts objects into an empty list, and of the one with a key what is left.
pub(crate) fn push_rest_before(
    key: u32,
    behind: u32,
    objects: List<KeyedObject>,
    kept: &mut List<KeyedObject>,
) -> Result<(), NoMemory>
    requires empty { kept.old ≡ [] }
    ensures { OnOk result (kept.new ≡ map (rest_before_entry key behind) objects) }
{
    for entry in objects.into_vec() {
        if entry.key == key {
            kept.push(KeyedObject {
                key: entry.key,
                object: rest_object(entry.object, behind),
            })?;
        } else {
            kept.push(entry)?;
        }
    }
    Ok(())
}
