//! The first two neighbours of a graph that fold.
ghost use Rattle.std.specs.Prelude.{◌≡◌, IfOk, IfSome};
ghost use Rattle.fold.specs.Candidates.{candidates};
ghost use Rattle.fold.specs.Foldable.{IsFoldable, IsFirstFold};

use crate::candidates::candidates;
use crate::deciding::is_foldable;
use crate::fold::Fold;
use cbase::NoMemory;
use graph::Graph;
use std::alloc::Global;

/// The first of the folds that the links of a graph name that is foldable.
#[tactic(auto, using(crate::proofs::Tried::tried_first))]
fn first_of(alloc: Global, graph: &Graph, folds: &[Fold]) -> Result<Option<Fold>, NoMemory>
    requires { folds.now ≡ candidates graph.now }
    ensures some { IfOk result (λ answer. IfSome answer (λ fold. IsFoldable graph.now fold)) }
    ensures first { IfOk result (λ answer. IsFirstFold graph.now answer) }
{
    let _ = graph.object_count();
    let mut at: usize = 0;
    while at < folds.len() {
        match is_foldable(alloc, graph, &folds[at]) {
            Err(error) => return Err(error),
            Ok(fine) => {
                if fine {
                    return Ok(Some(folds[at]));
                }
            }
        }
        at += 1;
    }
    Ok(None)
}

/// The first two neighbours that are foldable, and how they are linked, in the order of keys and then of the places at which the first one holds an address
/// of the second. None exactly where no two objects are foldable.
///
/// It finds the folds that links name in time in proportion to the graph, and to the edges of the second of two regions for each link between them. Each is compared in
/// time in proportion to the bytes of the two objects, and to the product of their edges; for two regions that are linked both ways it is seen as well, in time in
/// proportion to the graph, who else holds an address of them. Where all that agrees, what is folded is made and tested as a graph is.
pub fn foldable(alloc: Global, graph: &Graph) -> Result<Option<Fold>, NoMemory>
    ensures some { IfOk result (λ answer. IfSome answer (λ fold. IsFoldable graph.now fold)) }
    ensures first { IfOk result (λ answer. IsFirstFold graph.now answer) }
{
    match candidates(alloc, graph) {
        Err(error) => Err(error),
        Ok(folds) => first_of(alloc, graph, folds.as_slice()),
    }
}
