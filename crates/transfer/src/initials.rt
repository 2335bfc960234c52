//! What static variables hold at the start.
ghost use Rattle.std.specs.Prelude.{◌≡◌, ◌+◌, ◌<◌, length, IfOk, All, IsTrue};
ghost use Rattle.flow.specs.Valid.{is_initial};
ghost use Rattle.graph.specs.Maps.{storage_of};
ghost use Rattle.transfer.specs.Start.{AreNamed, MayStand, initial_value, with_initial, with_initials};

use cbase::NoMemory;
use changes::{with_value, write_object};
use flow::{Flow, Initial, InitialWord};
use graph::{HasValue, Named, Parts, Target, Value};
use std::alloc::Global;

/// The key of the object that is a variable's storage.
fn storage_of(variables: &[Named], variable: u32) -> Option<u32>
    ensures { result ≡ storage_of variables.now variable }
{
    let mut left = variables;
    while let [first, rest @ ..] = left {
        if first.variable == variable {
            return Some(first.object);
        }
        left = rest;
    }
    None
}

/// The value of what a scalar of so many bytes holds.
fn initial_value(parts: &Parts, size: u8, word: InitialWord) -> Value
    ensures { result ≡ initial_value parts.now size word }
{
    match word {
        InitialWord::Number(number) => Value::Const { number, size },
        InitialWord::Address { variable, offset } => {
            match storage_of(parts.variables.as_slice(), variable) {
                None => Value::Const { number: 0, size: 8 },
                Some(object) => Value::Address {
                    object,
                    offset,
                    target: Target::Region,
                },
            }
        }
    }
}

/// A graph's parts in which a scalar stands.
fn put_initial(alloc: Global, parts: Parts, scalar: &Initial) -> Result<Parts, NoMemory>
    requires may { MayStand parts scalar.now }
    requires few { length parts.values < 4294967296 }
    ensures { IfOk result (λ after. after ≡ with_initial scalar.now parts) }
{
    match storage_of(parts.variables.as_slice(), scalar.variable) {
        None => unreachable!(),
        Some(key) => {
            let value = initial_value(&parts, scalar.size, scalar.word);
            let edge = HasValue {
                at: scalar.at,
                size: scalar.size,
                value: parts.values.len() as u32,
            };
            match with_value(parts, value) {
                Err(error) => Err(error),
                Ok(more) => write_object(alloc, more, key, edge, value),
            }
        }
    }
}

/// A graph's parts in which all scalars of static variables stand.
pub(crate) fn put_initials(alloc: Global, flow: &Flow, parts: Parts) -> Result<Parts, NoMemory>
    requires named { AreNamed flow.now parts }
    requires right { All (λ scalar. IsTrue (is_initial flow.now scalar)) flow.now.initial }
    requires few { length parts.values + length flow.now.initial < 4294967296 }
    ensures { IfOk result (λ after. after ≡ with_initials flow.now.initial parts) }
{
    let mut after = parts;
    let mut left = flow.initial.as_slice();
    while let [first, rest @ ..] = left {
        after = put_initial(alloc, after, first)?;
        left = rest;
    }
    Ok(after)
}
