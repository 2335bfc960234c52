//! Which objects stay.
ghost use Rattle.std.specs.Prelude.{◌≡◌, IfOk};
ghost use Rattle.tidying.specs.Marks.{live_marked, named_marked, value_marked, values_marked, object_marks};

use crate::marks::{is_marked, mark};
use cbase::NoMemory;
use graph::{KeyedObject, KeyedValue, Parts, Value};
use std::alloc::Global;

/// Marks the objects that live.
fn mark_live(marks: &mut [bool], objects: &[KeyedObject])
    ensures { marks.new ≡ live_marked marks.old objects.now }
{
    let mut left = objects;
    while let [first, rest @ ..] = left {
        if first.object.live {
            mark(marks, first.key);
        }
        left = rest;
    }
}

/// Marks the object of which a value is an address.
fn mark_named(marks: &mut [bool], value: Value)
    ensures { marks.new ≡ named_marked marks.old value }
{
    match value {
        Value::Const { number: _, size: _ } => {}
        Value::Number { size: _ } => {}
        Value::Any => {}
        Value::Address {
            object,
            offset: _,
            target: _,
        } => mark(marks, object),
    }
}

/// Marks the objects of which a value that stays is an address.
fn mark_values(values: &[bool], marks: &mut [bool], entries: &[KeyedValue])
    ensures { marks.new ≡ values_marked values.now marks.old entries.now }
{
    let mut left = entries;
    while let [first, rest @ ..] = left {
        if is_marked(values, first.key) {
            mark_named(marks, first.value);
        }
        left = rest;
    }
}

/// Of each object whether it stays, where these values do.
pub(crate) fn object_marks(
    alloc: Global,
    parts: &Parts,
    values: &[bool],
) -> Result<Vec<bool>, NoMemory>
    ensures { IfOk result (λ marks. marks.items ≡ object_marks parts.now values.now) }
{
    let mut marks: Vec<bool> = vec![in alloc; false; parts.objects.len()]?;
    mark_live(marks.as_mut_slice(), parts.objects.as_slice());
    mark_values(values, marks.as_mut_slice(), parts.values.as_slice());
    Ok(marks)
}
