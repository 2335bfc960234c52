//! The rows of objects that declarations make, each by the token of its name (C11 6.2.4).
ghost use Rattle.std.specs.Prelude.{◌≡◌, ℕ, [], nat_eq, OnOk};
ghost use Rattle.std.specs.Map.{lookup};
ghost use Rattle.c_text.specs.FirstRows.{or_else};
ghost use Rattle.c_text.specs.Objects.{object_here, AreObjects};

use crate::first_rows::put_first;
use crate::object_row::ObjectRow;
use cbase::NoMemory;
use expressions::HandedRow;
use indexmap::IndexMap;

/// Puts what is handed on of objects into a map that is empty.
#[tactic(auto, using(crate::proofs::FirstRows::or_none, crate::proofs::FirstRows::or_or))]
pub(crate) fn gather_objects(
    objects: &mut IndexMap<u32, ObjectRow>,
    handed: &[HandedRow],
) -> Result<(), NoMemory>
    requires { objects.old.entries ≡ [] }
    ensures { OnOk result (AreObjects handed.now objects.new.entries) }
{
    for row in handed {
        put(objects, *row)?;
    }
    Ok(())
}

/// Puts a row, if it is one of an object, unless its token has one.
#[tactic(auto, using(crate::proofs::FirstRows::or_none))]
fn put(objects: &mut IndexMap<u32, ObjectRow>, row: HandedRow) -> Result<(), NoMemory>
    ensures { OnOk result ((token : ℕ) → lookup (nat_eq token) objects.new.entries ≡ or_else (lookup (nat_eq token) objects.old.entries) (object_here token row)) }
{
    match row {
        HandedRow::Object {
            token,
            ctype,
            fixed,
            zeroed,
        } => put_first(
            objects,
            token,
            ObjectRow {
                token,
                ctype,
                fixed,
                zeroed,
            },
        ),
        HandedRow::Expression { .. }
        | HandedRow::Store { .. }
        | HandedRow::Link { .. }
        | HandedRow::Function { .. }
        | HandedRow::Parameter { .. } => Ok(()),
    }
}
