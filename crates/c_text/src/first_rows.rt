//! Maps in which the first row of a token counts.
ghost use Rattle.std.specs.Prelude.{◌≡◌, ℕ, None, Some, nat_eq, OnOk, if◌then◌else◌};
ghost use Rattle.std.specs.Map.{lookup};
ghost use Rattle.c_text.specs.FirstRows.{or_else};

use cbase::NoMemory;
use indexmap::IndexMap;

/// What a map has for a token. It takes one look-up by hash.
pub(crate) fn found<A: Copy>(table: &IndexMap<u32, A>, token: u32) -> Option<A>
    ensures { result ≡ lookup (nat_eq token) table.now.entries }
{
    table.get(&token).copied()
}

/// Puts a value for a token, unless it has one.
#[tactic(auto, using(crate::proofs::FirstRows::stays, crate::proofs::FirstRows::comes))]
pub(crate) fn put_first<A: Copy>(
    table: &mut IndexMap<u32, A>,
    own: u32,
    value: A,
) -> Result<(), NoMemory>
    ensures { OnOk result ((token : ℕ) → lookup (nat_eq token) table.new.entries
        ≡ or_else (lookup (nat_eq token) table.old.entries) (if nat_eq own token then Some value else None)) }
{
    match found(table, own) {
        Some(_) => Ok(()),
        None => {
            table.insert(own, value)?;
            Ok(())
        }
    }
}
