//! Parts of which some stay.
ghost use Rattle.std.specs.Prelude.{◌≡◌, ◌++◌, ◌&&◌, [], IfOk, OnOk};
ghost use Rattle.std.specs.List.{filter};
ghost use Rattle.graph.specs.Unheld.{with_only};
ghost use Rattle.tidying.specs.Marks.{is_marked};

use crate::marks::is_marked;
use cbase::{List, NoMemory};
use graph::{KeyedObject, KeyedValue, Pair, Parts};
use std::alloc::Global;

/// Puts the objects that are marked into an empty list. They are moved, and not copied.
fn keep_objects(
    objects: List<KeyedObject>,
    marks: &[bool],
    kept: &mut List<KeyedObject>,
) -> Result<(), NoMemory>
    requires { kept.old ≡ [] }
    ensures { OnOk result (kept.new ≡ filter (λ entry. is_marked marks.now entry.key) objects) }
{
    for entry in objects.into_vec() {
        if is_marked(marks, entry.key) {
            kept.push(entry)?;
        }
    }
    Ok(())
}

/// Puts the values that are marked behind others.
fn keep_values(
    values: &[KeyedValue],
    marks: &[bool],
    kept: &mut List<KeyedValue>,
) -> Result<(), NoMemory>
    ensures { OnOk result (kept.new ≡ kept.old ++ filter (λ entry. is_marked marks.now entry.key) values.now) }
{
    let mut left = values;
    while let [first, rest @ ..] = left {
        if is_marked(marks, first.key) {
            kept.push(*first)?;
        }
        left = rest;
    }
    Ok(())
}

/// Whether both values of a pair are marked.
fn are_marked(marks: &[bool], pair: Pair) -> bool
    ensures { result ≡ (is_marked marks.now pair.left && is_marked marks.now pair.right) }
{
    is_marked(marks, pair.left) && is_marked(marks, pair.right)
}

/// Puts the pairs of which both values are marked behind others.
fn keep_pairs(pairs: &[Pair], marks: &[bool], kept: &mut List<Pair>) -> Result<(), NoMemory>
    ensures { OnOk result (kept.new ≡ kept.old ++ filter (λ pair. is_marked marks.now pair.left && is_marked marks.now pair.right) pairs.now) }
{
    let mut left = pairs;
    while let [first, rest @ ..] = left {
        if are_marked(marks, *first) {
            kept.push(*first)?;
        }
        left = rest;
    }
    Ok(())
}

/// Puts the values that are marked, and the pairs of such, into empty lists.
fn keep_others(
    parts: &Parts,
    marks: &[bool],
    values: &mut List<KeyedValue>,
    unequal: &mut List<Pair>,
) -> Result<(), NoMemory>
    requires no_values { values.old ≡ [] }
    requires no_pairs { unequal.old ≡ [] }
    ensures values { OnOk result (values.new ≡ filter (λ entry. is_marked marks.now entry.key) parts.now.values) }
    ensures unequal { OnOk result (unequal.new ≡ filter (λ pair. is_marked marks.now pair.left && is_marked marks.now pair.right) parts.now.unequal) }
{
    keep_values(parts.values.as_slice(), marks, values)?;
    keep_pairs(parts.unequal.as_slice(), marks, unequal)?;
    Ok(())
}

/// The parts with the values and objects that are marked, and with the pairs of such values.
pub(crate) fn with_marked(
    alloc: Global,
    parts: Parts,
    values: &[bool],
    objects: &[bool],
) -> Result<Parts, NoMemory>
    ensures { IfOk result (λ kept. kept ≡ with_only (is_marked values.now) (is_marked objects.now) parts) }
{
    let mut entries = List::new(alloc);
    let mut kept_values = List::new(alloc);
    let mut unequal = List::new(alloc);
    match keep_others(&parts, values, &mut kept_values, &mut unequal) {
        Err(error) => {
            drop(parts);
            Err(error)
        }
        Ok(()) => {
            let Parts {
                objects: all,
                values: _,
                variables,
                registers,
                ports,
                unequal: _,
            } = parts;
            match keep_objects(all, objects, &mut entries) {
                Ok(()) => Ok(Parts {
                    objects: entries,
                    values: kept_values,
                    variables,
                    registers,
                    ports,
                    unequal,
                }),
                Err(error) => {
                    drop(entries);
                    Err(error)
                }
            }
        }
    }
}
