//! Scalars of which none that stands behind is the same.
ghost use Rattle.std.specs.Prelude.{◌≡◌, ◌∷◌, ◌++◌, [], false, reverse, List as Items, IfOk, OnOk};
ghost use Rattle.std.specs.List.{list_any};
ghost use Rattle.flow.specs.declared.flow_graph.Initial.{Initial};
ghost use Rattle.lowering.specs.Initials.{latest};
ghost use Rattle.lowering.specs.Latest.{is_scalar, key_of, AreLatest};

use cbase::{List, NoMemory};
use flow::Initial;
use indexmap::IndexSet;
use std::alloc::Global;

/// Which scalar of which variable it is.
#[derive(Clone, Copy, PartialEq, Eq, Hash)]
pub struct ScalarKey {
    /// The variable.
    pub variable: u32,
    /// Where in it the scalar stands, in bytes.
    pub at: u32,
    /// How many bytes it has.
    pub size: u8,
}

/// Those of these scalars of which none that stands behind is the same, in order (C11 6.7.9p19).
///
/// It takes time and memory in proportion to how many they are.
pub fn latest_scalars(alloc: Global, initials: &[Initial]) -> Result<List<Initial>, NoMemory>
    ensures { IfOk result (λ kept. kept ≡ latest initials.now) }
{
    let mut kept = Vec::new(alloc);
    keep_latest(alloc, &mut kept, initials)?;
    kept.as_mut_slice().reverse();
    Ok(List::from_vec(kept))
}

/// Puts them into a list that is empty, the last one first.
#[tactic(auto, using(crate::proofs::LatestFound::none_yet))]
fn keep_latest(alloc: Global, kept: &mut Vec<Initial>, initials: &[Initial]) -> Result<(), NoMemory>
    requires { kept.old.items ≡ [] }
    ensures { OnOk result (reverse kept.new.items ≡ latest initials.now) }
{
    let mut found = IndexSet::new(alloc);
    let mut left = initials.len();
    while left > 0 {
        left -= 1;
        keep(&mut found, kept, initials[left])?;
    }
    Ok(())
}

/// Puts one in front of those behind it, unless one of them is the same.
#[tactic(auto, using(crate::proofs::LatestFound::stays, crate::proofs::LatestFound::comes))]
fn keep(
    found: &mut IndexSet<ScalarKey>,
    kept: &mut Vec<Initial>,
    initial: Initial,
) -> Result<(), NoMemory>
    ensures { OnOk result ((rest : Items Initial) → AreLatest rest kept.old.items found.old.keys → AreLatest (initial ∷ rest) kept.new.items found.new.keys) }
{
    if is_found(found, initial) {
        return Ok(());
    }
    kept.push(initial)?;
    put(found, initial)
}

/// Whether a scalar is among these.
fn is_found(found: &IndexSet<ScalarKey>, initial: Initial) -> bool
    ensures { result ≡ list_any (is_scalar initial) found.now.keys }
{
    found.contains(&ScalarKey {
        variable: initial.variable,
        at: initial.at,
        size: initial.size,
    })
}

/// Puts a scalar that is not there among others.
fn put(found: &mut IndexSet<ScalarKey>, initial: Initial) -> Result<(), NoMemory>
    requires { list_any (is_scalar initial) found.old.keys ≡ false }
    ensures { OnOk result (found.new.keys ≡ found.old.keys ++ key_of initial ∷ []) }
{
    found.insert(ScalarKey {
        variable: initial.variable,
        at: initial.at,
        size: initial.size,
    })?;
    Ok(())
}
