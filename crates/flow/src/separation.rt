ghost use Rattle.std.specs.Prelude.{◌≡◌, ◌≢◌, ◌<◌, ◌-◌, ◌+◌, ◌^◌, ◌↔◌, ℕ, suc, length, Contains, IsTrue, IfOk, Some, None, MatchOption, All, slice_get, slice_index, IsFalse, true, false};
ghost use Rattle.std.specs.List.{HoldsAt};
ghost use Rattle.flow.specs.declared.flow_graph.FlowFunction.{FlowFunction};
ghost use Rattle.flow.specs.InRange.{IsInRange};
ghost use Rattle.flow.specs.Owning.{AreOwned, is_open};
ghost use Rattle.flow.specs.Valid.{AreSeparate};

use crate::flow_graph::{Flow, FlowEdge};
use crate::spreading::{is_open, own, owner_at, spread};
use cbase::NoMemory;
use std::alloc::Global;

/// Notes of the entry of each function that it is reached from there; `None` where two functions have one entry.
fn owners_of_entries(alloc: Global, flow: &Flow) -> Result<Option<Vec<usize>>, NoMemory>
    requires { IsInRange flow.now }
    ensures { IfOk result (λ owners. MatchOption owners (AreSeparate flow.now → ⊥)
        (λ owners. AreOwned flow.now (length flow.now.functions) owners.items)) }
{
    let mut owners: Vec<usize> = vec![in alloc; 0; flow.points as usize]?;
    for (number, function) in flow.functions.as_slice().iter().enumerate() {
        if owner_at(owners.as_slice(), function.entry) != 0 {
            return Ok(None);
        }
        owners[function.entry as usize] = number + 1;
    }
    Ok(Some(owners))
}

/// The number of the first open edge.
fn open_edge(owners: &[usize], edges: &[FlowEdge]) -> Option<usize>
    ensures { MatchOption result (All (λ edge. is_open owners.now edge ≡ false) edges.now)
        (λ at. (at < length edges.now) × HoldsAt (λ edge. is_open owners.now edge ≡ true) edges.now at) }
{
    for (at, edge) in edges.iter().enumerate() {
        if is_open(owners, edge) {
            return Some(at);
        }
    }
    None
}

/// Notes of each point that is reached from an entry from which. It is false where one is reached from two.
fn own_all(flow: &Flow, owners: &mut Vec<usize>) -> bool
    requires range { IsInRange flow.now }
    requires owned { AreOwned flow.now (length flow.now.functions) owners.old.items }
    ensures owned { IsTrue result → AreOwned flow.now (length flow.now.functions) owners.new.items }
    ensures closed { IsTrue result → All (λ edge. is_open owners.new.items edge ≡ false) flow.now.edges }
    ensures two { IsFalse result → AreSeparate flow.now → ⊥ }
{
    let edges = flow.edges.as_slice();
    while let Some(at) = open_edge(owners.as_slice(), edges) {
        let edge = &edges[at];
        if owner_at(owners.as_slice(), edge.to) != 0 {
            return false;
        }
        own(owners, edge);
    }
    true
}

/// Whether nothing else is noted of a function's exit than the function.
fn owns_its_exit(owners: &[usize], number: usize, exit: u32) -> bool
    requires { number < 2 ^ 64 - 1 }
    ensures { IsTrue result ↔ ((slice_index owners.now exit ≢ 0) → slice_index owners.now exit ≡ number + 1) }
{
    let owner = owner_at(owners, exit);
    owner == 0 || owner == number + 1
}

/// Whether nothing else is noted of each function's exit than the function.
fn all_own_exits(flow: &Flow, owners: &[usize]) -> bool
    requires { AreOwned flow.now (length flow.now.functions) owners.now }
    ensures exits { IsTrue result → (number : ℕ) (function : FlowFunction) → slice_get flow.now.functions number ≡ Some function →
        slice_index owners.now function.exit ≢ 0 → slice_index owners.now function.exit ≡ suc number }
    ensures other { IsFalse result → AreSeparate flow.now → ⊥ }
{
    for (number, function) in flow.functions.as_slice().iter().enumerate() {
        if !owns_its_exit(owners, number, function.exit) {
            return false;
        }
    }
    true
}

/// Whether no point is reached from the entries of two functions, and no function's exit from the entry of another.
pub fn are_separate(alloc: Global, flow: &Flow) -> Result<bool, NoMemory>
    requires { IsInRange flow.now }
    ensures { IfOk result (λ separate. IsTrue separate ↔ AreSeparate flow.now) }
{
    let Some(mut owners) = owners_of_entries(alloc, flow)? else {
        return Ok(false);
    };
    spread(alloc, flow, &mut owners)?;
    if !own_all(flow, &mut owners) {
        return Ok(false);
    }
    Ok(all_own_exits(flow, owners.as_slice()))
}
