//! The graphs that a graph is, where none of some registers names a node of a segment.
ghost use Rattle.std.specs.Prelude.{◌≡◌, ◌↔◌, [], ◌∷◌, ◌++◌, false, true, reverse, flat_map, IfOk, IfErr, OnOk};
ghost use Rattle.std.specs.List.{All, list_any};
ghost use Rattle.graph.specs.declared.parts.Parts.{Parts};
ghost use Rattle.graph.specs.Meaning.{StandsFor};
ghost use Rattle.graph.specs.State.{State};
ghost use Rattle.changes.specs.Posted.{SomeStandsFor};
ghost use Rattle.materialise.specs.Kept.{HoldsAsBefore};
ghost use Rattle.settle.specs.Parted.{is_beyond, AreParted};
ghost use Rattle.settle.specs.Settled.{first_cases, name_no_segment, settled, is_too_large};

use crate::cases::first_cases;
use cbase::{List, NoMemory, Stop};
use graph::Graph;
use std::alloc::Global;

/// Puts cases behind others, the last one first.
fn push_back(cases: List<Graph>, left: &mut Vec<Graph>) -> Result<(), NoMemory>
    ensures { OnOk result (left.new.items ≡ left.old.items ++ reverse cases) }
{
    let mut cases = cases.into_vec();
    while let Some(case) = cases.pop() {
        left.push(case)?;
    }
    Ok(())
}

/// Settles the graphs that are left, the last one first.
fn settle_all(
    alloc: Global,
    registers: &[u32],
    left: &mut Vec<Graph>,
    done: &mut List<Graph>,
) -> Result<(), Stop>
    requires empty { done.old ≡ [] }
    ensures ok { OnOk result (done.new ≡ flat_map (settled registers.now) (reverse left.old.items)) }
    ensures within { OnOk result (list_any (is_too_large registers.now) left.old.items ≡ false) }
    ensures names { OnOk result (All (λ graph. name_no_segment registers.now graph ≡ true) done.new) }
    ensures parted { OnOk result ((parts : Parts) → AreParted parts (reverse left.old.items) → AreParted parts done.new) }
    ensures large { IfErr result (λ stop. stop ≡ Stop.Large → list_any (is_too_large registers.now) left.old.items ≡ true) }
{
    while let Some(graph) = left.pop() {
        match first_cases(alloc, &graph, registers) {
            Err(stop) => {
                drop(graph);
                return Err(stop);
            }
            Ok(None) => match done.push(graph) {
                Ok(()) => {}
                Err(NoMemory) => return Err(Stop::NoMemory),
            },
            Ok(Some(cases)) => {
                drop(graph);
                match push_back(cases, left) {
                    Ok(()) => {}
                    Err(NoMemory) => return Err(Stop::NoMemory),
                }
            }
        }
    }
    Ok(())
}

/// The graphs of some cases, one behind the other.
fn cases_settled(alloc: Global, cases: List<Graph>, registers: &[u32]) -> Result<List<Graph>, Stop>
    ensures ok { IfOk result (λ graphs. graphs ≡ flat_map (settled registers.now) cases) }
    ensures within { IfOk result (λ _. list_any (is_too_large registers.now) cases ≡ false) }
    ensures names { IfOk result (λ graphs. All (λ graph. name_no_segment registers.now graph ≡ true) graphs) }
    ensures parted { IfOk result (λ graphs. (parts : Parts) → AreParted parts cases → AreParted parts graphs) }
    ensures large { IfErr result (λ stop. stop ≡ Stop.Large → list_any (is_too_large registers.now) cases ≡ true) }
{
    let mut left = Vec::new(alloc);
    let mut done = List::new(alloc);
    match push_back(cases, &mut left) {
        Err(NoMemory) => Err(Stop::NoMemory),
        Ok(()) => match settle_all(alloc, registers, &mut left, &mut done) {
            Ok(()) => Ok(done),
            Err(stop) => Err(stop),
        },
    }
}

/// A copy of a graph alone.
fn copy_alone(alloc: Global, graph: &Graph) -> Result<List<Graph>, Stop>
    ensures ok { IfOk result (λ graphs. graphs ≡ graph.now ∷ []) }
    ensures small { IfErr result (λ stop. stop ≡ Stop.NoMemory) }
{
    match graph.copied(alloc) {
        Err(stop) => Err(stop),
        Ok(copy) => {
            let mut graphs = List::new(alloc);
            match graphs.push(copy) {
                Ok(()) => Ok(graphs),
                Err(NoMemory) => Err(Stop::NoMemory),
            }
        }
    }
}

/// The graphs that a graph is, where none of these registers holds the address of a node of a segment. Where none does, that is the graph itself, which is copied.
/// Else the segment that the first of them names is split, by its first node where the register holds the address of that, and else by its last; and so on with
/// each case, in order.
///
/// The graphs stand together for exactly the states for which the graph stands. Each names the same variables, and holds values of the same sizes in the same
/// registers and ports. `Large` comes only where a graph on the way would have 2^30 nodes, and no answer comes there; where that is so of the first split, it comes before
/// memory is taken. A register may stand more than once, or hold nothing. For each split it takes time in proportion to the graph, and to the logarithm of its size for each key; its stack does not grow.
pub fn settled(alloc: Global, graph: &Graph, registers: &[u32]) -> Result<List<Graph>, Stop>
    ensures ok { IfOk result (λ graphs. graphs ≡ settled registers.now graph.now) }
    ensures names { IfOk result (λ graphs. All (λ graph. name_no_segment registers.now graph ≡ true) graphs) }
    ensures means { IfOk result (λ graphs. (state : State) → (StandsFor graph.now state ↔ SomeStandsFor graphs state)) }
    ensures holds { IfOk result (λ graphs. All (HoldsAsBefore graph.now) graphs) }
    ensures within { IfOk result (λ _. is_too_large registers.now graph.now ≡ false) }
    ensures large { IfErr result (λ stop. stop ≡ Stop.Large → is_too_large registers.now graph.now ≡ true) }
    ensures at_once { is_beyond (first_cases graph.now registers.now) ≡ true → result ≡ Err Stop.Large }
{
    let _ = graph.object_count();
    match first_cases(alloc, graph, registers) {
        Err(stop) => Err(stop),
        Ok(None) => copy_alone(alloc, graph),
        Ok(Some(cases)) => cases_settled(alloc, cases, registers),
    }
}
