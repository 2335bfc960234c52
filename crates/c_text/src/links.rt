//! The names of objects that have linkage, each with the one that declared it first (C11 6.2.2p2).
ghost use Rattle.std.specs.Prelude.{◌≡◌, ℕ, [], nat_eq, OnOk};
ghost use Rattle.std.specs.Map.{lookup};
ghost use Rattle.c_text.specs.FirstRows.{or_else};
ghost use Rattle.c_text.specs.Links.{link_here, AreLinks};

use crate::first_rows::put_first;
use cbase::NoMemory;
use expressions::HandedRow;
use indexmap::IndexMap;

/// Puts what is handed on of such names into a map that is empty.
#[tactic(auto, using(crate::proofs::FirstRows::or_none, crate::proofs::FirstRows::or_or))]
pub(crate) fn gather_links(
    links: &mut IndexMap<u32, u32>,
    handed: &[HandedRow],
) -> Result<(), NoMemory>
    requires { links.old.entries ≡ [] }
    ensures { OnOk result (AreLinks handed.now links.new.entries) }
{
    for row in handed {
        put(links, *row)?;
    }
    Ok(())
}

/// Puts a row, if it is one of such a name, unless the name has one.
#[tactic(auto, using(crate::proofs::FirstRows::or_none))]
fn put(links: &mut IndexMap<u32, u32>, row: HandedRow) -> Result<(), NoMemory>
    ensures { OnOk result ((token : ℕ) → lookup (nat_eq token) links.new.entries ≡ or_else (lookup (nat_eq token) links.old.entries) (link_here token row)) }
{
    match row {
        HandedRow::Link { token, first } => put_first(links, token, first),
        HandedRow::Expression { .. }
        | HandedRow::Store { .. }
        | HandedRow::Object { .. }
        | HandedRow::Function { .. }
        | HandedRow::Parameter { .. } => Ok(()),
    }
}
