//! What is made of graphs at loop heads.
ghost use Rattle.std.specs.Prelude.{◌≡◌, true, IfOk, IfSome, None};
ghost use Rattle.coarse.specs.Coarsened.{is_coarse};
ghost use Rattle.fold.specs.Foldable.{IsFoldable};
ghost use Rattle.materialise.specs.Kept.{HoldsAsBefore};
ghost use Rattle.driver.specs.Driven.{IsPlaced, IsFolded, IsReducedTo};
ghost use Rattle.driver.specs.Growing.{MayChange, ChangesTo, TellsChange, IsMade, cause_of};

use crate::leaving::left_graph;
use crate::looking::is_small;
use crate::work::Change;
use cbase::NoMemory;
use coarse::{coarse, is_coarse};
use flow::{Flow, is_head};
use fold::{Fold, apply, foldable};
use graph::Graph;
use std::alloc::Global;
use trail::Cause;

/// What is made of a graph at a loop head: where it holds constants beyond the limit, these are forgotten, and where not, the first two neighbours of a list
/// become a segment. None where there is neither.
fn head_change(alloc: Global, limit: u32, graph: &Graph) -> Result<Option<Change>, NoMemory>
    ensures none { IfOk result (λ found. found ≡ None → IsReducedTo limit graph.now) }
    ensures some { IfOk result (λ found. IfSome found (λ change. MayChange limit graph.now change)) }
{
    match is_coarse(alloc, graph, limit) {
        Err(error) => Err(error),
        Ok(false) => Ok(Some(Change::Coarse)),
        Ok(true) => match foldable(alloc, graph) {
            Err(error) => Err(error),
            Ok(None) => Ok(None),
            Ok(Some(fold)) => Ok(Some(Change::Fold { fold })),
        },
    }
}

/// What is made of a graph at a point: something where that is a loop head alone.
pub(crate) fn change_of(
    alloc: Global,
    flow: &Flow,
    limit: u32,
    point: u32,
    graph: &Graph,
) -> Result<Option<Change>, NoMemory>
    ensures { IfOk result (λ found. TellsChange flow.now limit point graph.now found) }
{
    if !is_head(flow, point) {
        return Ok(None);
    }
    head_change(alloc, limit, graph)
}

/// The cause of what is made of an entry.
pub(crate) fn cause_of(change: Change, from: u32) -> Cause
    ensures { result ≡ cause_of change from }
{
    match change {
        Change::Coarse => Cause::Coarse { from },
        Change::Fold { .. } => Cause::Fold { from },
    }
}

/// The graph in which two neighbours are one segment, without what nothing holds then: what only one of the two held.
#[tactic(auto, using(crate::proofs::Looked::folded_there, crate::proofs::Looked::folded_holds))]
fn folded(alloc: Global, limit: u32, graph: &Graph, fold: Fold) -> Result<Graph, NoMemory>
    requires coarse { is_coarse limit graph.now ≡ true }
    requires foldable { IsFoldable graph.now fold }
    ensures makes { IfOk result (λ after. IsFolded limit graph.now after) }
    ensures holds { IfOk result (λ after. HoldsAsBefore graph.now after) }
{
    match apply(alloc, graph, &fold) {
        Err(error) => Err(error),
        Ok(whole) => left_graph(alloc, whole),
    }
}

/// The graph that is made.
#[tactic(auto, using(crate::proofs::Looked::holds_left))]
fn changed(alloc: Global, limit: u32, graph: &Graph, change: Change) -> Result<Graph, NoMemory>
    requires may { MayChange limit graph.now change }
    ensures makes { IfOk result (λ after. ChangesTo limit graph.now change after) }
    ensures holds { IfOk result (λ after. HoldsAsBefore graph.now after) }
{
    match change {
        Change::Coarse => coarse(alloc, graph, limit),
        Change::Fold { fold } => folded(alloc, limit, graph, fold),
    }
}

/// The same, where the graph may stand at a point.
#[tactic(auto, using(crate::proofs::Looked::made_there))]
pub(crate) fn made(
    alloc: Global,
    flow: &Flow,
    limit: u32,
    point: u32,
    graph: &Graph,
    change: Change,
) -> Result<Graph, NoMemory>
    requires placed { IsPlaced flow.now point graph.now }
    requires may { MayChange limit graph.now change }
    ensures { IfOk result (λ after. IsMade flow.now limit point graph.now change after) }
{
    match changed(alloc, limit, graph, change) {
        Err(error) => Err(error),
        Ok(after) => {
            if !is_small(&after) {
                return Err(NoMemory);
            }
            Ok(after)
        }
    }
}
