//! The definitions of functions, each with how many rows stand in front of those of its parameters (C11 6.9.1).
ghost use Rattle.std.specs.Prelude.{◌≡◌, ℕ, [], nat_eq, OnOk};
ghost use Rattle.std.specs.Map.{lookup};
ghost use Rattle.c_text.specs.FirstRows.{or_else};
ghost use Rattle.c_text.specs.Functions.{function_here, AreFunctions};

use crate::first_rows::put_first;
use cbase::NoMemory;
use expressions::HandedRow;
use indexmap::IndexMap;

/// Puts what is handed on of functions into a map that is empty.
#[tactic(auto, using(crate::proofs::FirstRows::or_none, crate::proofs::FunctionsFound::one_more))]
pub(crate) fn gather_functions(
    functions: &mut IndexMap<u32, usize>,
    handed: &[HandedRow],
) -> Result<(), NoMemory>
    requires { functions.old.entries ≡ [] }
    ensures { OnOk result (AreFunctions handed.now functions.new.entries) }
{
    let mut at = 0;
    while at < handed.len() {
        put(functions, handed[at], at + 1)?;
        at += 1;
    }
    Ok(())
}

/// Puts a row, if it is one of a function, with how many rows stand in front of the next one, unless its token has one.
#[tactic(auto, using(crate::proofs::FirstRows::or_none))]
fn put(functions: &mut IndexMap<u32, usize>, row: HandedRow, behind: usize) -> Result<(), NoMemory>
    ensures { OnOk result ((token : ℕ) → lookup (nat_eq token) functions.new.entries
        ≡ or_else (lookup (nat_eq token) functions.old.entries) (function_here token behind row)) }
{
    match row {
        HandedRow::Function { token, .. } => put_first(functions, token, behind),
        HandedRow::Expression { .. }
        | HandedRow::Store { .. }
        | HandedRow::Object { .. }
        | HandedRow::Link { .. }
        | HandedRow::Parameter { .. } => Ok(()),
    }
}
