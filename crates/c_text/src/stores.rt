//! The rows of stores of initialisers, each by its object and its expression (C11 6.7.9).
ghost use Rattle.std.specs.Prelude.{◌≡◌, ℕ, [], None, Some, ◌&&◌, nat_eq, OnOk, if◌then◌else◌};
ghost use Rattle.std.specs.Map.{lookup};
ghost use Rattle.c_text.specs.FirstRows.{or_else};
ghost use Rattle.c_text.specs.Stores.{is_key, store_here, AreStores};

use crate::store_row::{StoreKey, StoreRow};
use cbase::NoMemory;
use expressions::HandedRow;
use indexmap::IndexMap;

/// The row of a store. It takes one look-up by hash.
pub(crate) fn store_found(
    stores: &IndexMap<StoreKey, StoreRow>,
    object: u32,
    number: u32,
) -> Option<StoreRow>
    ensures { result ≡ lookup (is_key object number) stores.now.entries }
{
    stores.get(&StoreKey { object, number }).copied()
}

/// Puts what is handed on of stores into a map that is empty.
#[tactic(auto, using(crate::proofs::FirstRows::or_none, crate::proofs::FirstRows::or_or))]
pub(crate) fn gather_stores(
    stores: &mut IndexMap<StoreKey, StoreRow>,
    handed: &[HandedRow],
) -> Result<(), NoMemory>
    requires { stores.old.entries ≡ [] }
    ensures { OnOk result (AreStores handed.now stores.new.entries) }
{
    for row in handed {
        put(stores, *row)?;
    }
    Ok(())
}

/// Puts a row, if it is one of a store, unless its object and its expression have one.
#[tactic(auto, using(crate::proofs::FirstRows::or_none))]
fn put(stores: &mut IndexMap<StoreKey, StoreRow>, row: HandedRow) -> Result<(), NoMemory>
    ensures { OnOk result ((object number : ℕ) → lookup (is_key object number) stores.new.entries
        ≡ or_else (lookup (is_key object number) stores.old.entries) (store_here object number row)) }
{
    match row {
        HandedRow::Store {
            object,
            offset,
            ctype,
            number,
        } => put_store(
            stores,
            StoreRow {
                object,
                offset,
                ctype,
                number,
            },
        ),
        HandedRow::Expression { .. }
        | HandedRow::Object { .. }
        | HandedRow::Link { .. }
        | HandedRow::Function { .. }
        | HandedRow::Parameter { .. } => Ok(()),
    }
}

/// Puts the row of a store, unless its object and its expression have one.
#[tactic(auto, using(crate::proofs::StoresFound::stays, crate::proofs::StoresFound::comes))]
fn put_store(stores: &mut IndexMap<StoreKey, StoreRow>, row: StoreRow) -> Result<(), NoMemory>
    ensures { OnOk result ((object number : ℕ) → lookup (is_key object number) stores.new.entries
        ≡ or_else (lookup (is_key object number) stores.old.entries) (if nat_eq row.object object && nat_eq row.number number then Some row else None)) }
{
    match store_found(stores, row.object, row.number) {
        Some(_) => Ok(()),
        None => {
            let key = StoreKey {
                object: row.object,
                number: row.number,
            };
            stores.insert(key, row)?;
            Ok(())
        }
    }
}
