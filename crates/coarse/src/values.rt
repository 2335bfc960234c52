//! Values of which constants beyond a limit are forgotten.
ghost use Rattle.std.specs.Prelude.{◌≡◌, ◌++◌, ◌&&◌, not, true, map, OnOk, if◌then◌else◌};
ghost use Rattle.std.specs.List.{list_all, list_any};
ghost use Rattle.graph.specs.declared.parts.KeyedValue.{KeyedValue};
ghost use Rattle.graph.specs.Sizes.{is_sized};
ghost use Rattle.tidying.specs.Marks.{is_marked};
ghost use Rattle.coarse.specs.Beyond.{is_beyond, forgotten};

use crate::beyond::is_beyond;
use crate::marks::is_marked;
use cbase::{List, NoMemory};
use graph::{KeyedValue, Value};

/// What is left of a constant is its size; any other value stays.
fn forgotten(value: Value) -> Value
    ensures { result ≡ forgotten value }
{
    match value {
        Value::Const { number: _, size } => Value::Number { size },
        Value::Number { size } => Value::Number { size },
        Value::Any => Value::Any,
        Value::Address {
            object,
            offset,
            target,
        } => Value::Address {
            object,
            offset,
            target,
        },
    }
}

/// Whether an entry is a constant beyond the limit whose key is not marked.
fn is_to_go(limit: u32, marks: &[bool], entry: KeyedValue) -> bool
    requires { is_sized entry.value ≡ true }
    ensures { result ≡ (is_beyond limit entry.value && not (is_marked marks.now entry.key)) }
{
    is_beyond(limit, entry.value) && !is_marked(marks, entry.key)
}

/// Whether one of these entries is such a constant.
pub(crate) fn goes_any(limit: u32, marks: &[bool], values: &[KeyedValue]) -> bool
    requires { list_all (λ entry. is_sized entry.value) values.now ≡ true }
    ensures { result ≡ list_any (λ entry. is_beyond limit entry.value && not (is_marked marks.now entry.key)) values.now }
{
    let mut left = values;
    while let [first, rest @ ..] = left {
        if is_to_go(limit, marks, *first) {
            return true;
        }
        left = rest;
    }
    false
}

/// The entry with its key, and what is left of its value.
fn coarsened_entry(limit: u32, marks: &[bool], entry: KeyedValue) -> KeyedValue
    requires { is_sized entry.value ≡ true }
    ensures { result ≡ record { key = entry.key; value = if is_beyond limit entry.value && not (is_marked marks.now entry.key) then forgotten entry.value else entry.value } }
{
    if is_to_go(limit, marks, entry) {
        KeyedValue {
            key: entry.key,
            value: forgotten(entry.value),
        }
    } else {
        entry
    }
}

/// Puts what is left of these entries behind others.
pub(crate) fn coarsen_values(
    limit: u32,
    marks: &[bool],
    values: &[KeyedValue],
    done: &mut List<KeyedValue>,
) -> Result<(), NoMemory>
    requires { list_all (λ entry. is_sized entry.value) values.now ≡ true }
    ensures { OnOk result (done.new ≡ done.old ++ map {B = KeyedValue} (λ entry. record { key = entry.key; value = if is_beyond limit entry.value && not (is_marked marks.now entry.key) then forgotten entry.value else entry.value }) values.now) }
{
    let mut left = values;
    while let [first, rest @ ..] = left {
        done.push(coarsened_entry(limit, marks, *first))?;
        left = rest;
    }
    Ok(())
}
