ghost use Rattle.std.specs.Prelude.{◌≡◌, IfOk};

use cbase::NoMemory;

/// The number of a token of the row, or of `*` in it, as one of an event. A number that fits no such one is told as want of
/// memory: it needs more tokens than memory holds.
pub fn number(count: usize) -> Result<u32, NoMemory>
    ensures { IfOk result (λ number. number ≡ count) }
{
    match u32::try_from(count) {
        Ok(number) => Ok(number),
        Err(_) => Err(NoMemory),
    }
}
