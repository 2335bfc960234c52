//! A value more.
ghost use Rattle.std.specs.Prelude.{◌≡◌, ◌<◌, length, IfOk};
ghost use Rattle.changes.specs.Parts.{with_value};

use cbase::NoMemory;
use graph::{KeyedValue, Parts, Value};

/// A graph's parts with one value more, behind all others. Its key is how many there were.
pub fn with_value(parts: Parts, value: Value) -> Result<Parts, NoMemory>
    requires few { length parts.values < 4294967296 }
    ensures { IfOk result (λ after. after ≡ with_value value parts) }
{
    let mut after = parts;
    let key = after.values.len() as u32;
    match after.values.push(KeyedValue { key, value }) {
        Ok(()) => Ok(after),
        Err(error) => {
            drop(after);
            Err(error)
        }
    }
}
