//! Objects that live as long as the program runs, put in order of the text (C11 6.2.4p3).
ghost use Rattle.std.specs.Prelude.{◌≡◌, ◌≤◌, ◌++◌, ◌∷◌, length, take, drop, reverse, OnOk};
ghost use Rattle.c_text.specs.declared.fixed_object.FixedObject.{FixedObject};
ghost use Rattle.c_text.specs.Fixed.{put_fixed};

use crate::fixed_object::FixedObject;
use cbase::NoMemory;

/// Puts an object before those of names that stand behind its own in the text, in a list that begins with the last one.
///
/// It takes a step for each object that goes back.
#[tactic(auto, using(crate::proofs::FixedInOrder::put_at))]
pub(crate) fn put_fixed(rows: &mut Vec<FixedObject>, row: FixedObject) -> Result<(), NoMemory>
    ensures { OnOk result (reverse rows.new.items ≡ put_fixed row (reverse rows.old.items)) }
{
    let at = place_of(rows, row);
    rows.insert(at, row)?;
    Ok(())
}

/// Where an object goes in such a list.
#[tactic(auto, using(crate::proofs::FixedInOrder::passes, crate::proofs::FixedInOrder::stays))]
fn place_of(rows: &[FixedObject], row: FixedObject) -> usize
    ensures inside { result ≤ length rows.now }
    ensures is { put_fixed row (reverse rows.now) ≡ reverse (drop result rows.now) ++ row ∷ reverse (take result rows.now) }
{
    let mut at = rows.len();
    while at > 0 {
        if rows[at - 1].token >= row.token {
            return at;
        }
        at -= 1;
    }
    at
}
