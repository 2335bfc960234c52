//! The results of definitions of functions (C11 6.9.1p3).
ghost use Rattle.std.specs.Prelude.{◌≡◌, ℕ, [], nat_eq, OnOk};
ghost use Rattle.std.specs.Map.{lookup};
ghost use Rattle.c_text.specs.FirstRows.{or_else};
ghost use Rattle.c_text.specs.Results.{result_here, AreResults};

use crate::first_rows::put_first;
use cbase::NoMemory;
use expressions::HandedRow;
use indexmap::IndexMap;

/// Puts the numbers of the types of results into a map that is empty, each for the token of the name that defines the function.
#[tactic(auto, using(crate::proofs::FirstRows::or_none, crate::proofs::FirstRows::or_or))]
pub(crate) fn gather_results(
    results: &mut IndexMap<u32, u32>,
    handed: &[HandedRow],
) -> Result<(), NoMemory>
    requires { results.old.entries ≡ [] }
    ensures { OnOk result (AreResults handed.now results.new.entries) }
{
    for row in handed {
        put(results, *row)?;
    }
    Ok(())
}

/// Puts the number of a row, if it is one of a function, unless its token has one.
#[tactic(auto, using(crate::proofs::FirstRows::or_none))]
fn put(results: &mut IndexMap<u32, u32>, row: HandedRow) -> Result<(), NoMemory>
    ensures { OnOk result ((token : ℕ) → lookup (nat_eq token) results.new.entries ≡ or_else (lookup (nat_eq token) results.old.entries) (result_here token row)) }
{
    match row {
        HandedRow::Function { token, result } => put_first(results, token, result),
        HandedRow::Expression { .. }
        | HandedRow::Store { .. }
        | HandedRow::Object { .. }
        | HandedRow::Link { .. }
        | HandedRow::Parameter { .. } => Ok(()),
    }
}
