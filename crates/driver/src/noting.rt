//! The faults that posts tell of.
ghost use Rattle.std.specs.Prelude.{◌≡◌, length, OnOk};
ghost use Rattle.driver.specs.Telling.{warning_of, IsNoted, AreNoted};

use crate::verdict::Warning;
use cbase::{List, NoMemory, Place};

/// Puts in a fault.
#[tactic(auto, using(crate::proofs::Told::noted_there))]
fn note(
    warnings: &mut List<Warning>,
    place: Place,
    kind: u8,
    entry: u32,
    edge: u32,
) -> Result<(), NoMemory>
    ensures { OnOk result (IsNoted warnings.old warnings.new (warning_of place kind entry edge)) }
{
    warnings.push(Warning {
        place,
        kind,
        entry,
        edge,
        error: false,
    })?;
    Ok(())
}

/// Puts in the faults of a post.
#[tactic(auto, using(crate::proofs::Told::noted_first, crate::proofs::Told::noted_next))]
pub(crate) fn note_kinds(
    warnings: &mut List<Warning>,
    kinds: &[u8],
    place: Place,
    entry: u32,
    edge: u32,
) -> Result<(), NoMemory>
    ensures { OnOk result (AreNoted warnings.old warnings.new place entry edge kinds.now (length kinds.now)) }
{
    for which in 0..kinds.len() {
        note(warnings, place, kinds[which], entry, edge)?;
    }
    Ok(())
}
