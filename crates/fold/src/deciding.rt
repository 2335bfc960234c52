//! Whether two objects are foldable.
ghost use Rattle.std.specs.Prelude.{◌≡◌, ◌↔◌, true, IsTrue, IfOk};
ghost use Rattle.graph.specs.Renaming.{numbered};
ghost use Rattle.graph.specs.WellFormed.{IsWellFormed, HasAscendingKeys, is_within_limits};
ghost use Rattle.fold.specs.Foldable.{has_neighbours, IsFoldable};
ghost use Rattle.fold.specs.Folded.{folded};

use crate::fold::Fold;
use crate::folding::folded;
use crate::neighbours::has_neighbours;
use cbase::{NoMemory, Stop};
use graph::{Graph, graph_of};
use std::alloc::Global;

/// Whether two neighbours as one segment make a graph.
fn makes_graph(alloc: Global, graph: &Graph, fold: &Fold) -> Result<bool, NoMemory>
    requires { has_neighbours graph.now fold.now ≡ true }
    ensures { IfOk result (λ fine. IsTrue fine ↔ IsFoldable graph.now fold.now) }
{
    match folded(alloc, graph, fold) {
        Err(error) => Err(error),
        Ok(parts) => match graph_of(alloc, parts) {
            Err(Stop::NoMemory) => Err(NoMemory),
            Err(Stop::Large) => Ok(false),
            Ok(None) => Ok(false),
            Ok(Some(after)) => {
                drop(after);
                Ok(true)
            }
        },
    }
}

/// Whether a fold is foldable.
pub(crate) fn is_foldable(alloc: Global, graph: &Graph, fold: &Fold) -> Result<bool, NoMemory>
    ensures { IfOk result (λ fine. IsTrue fine ↔ IsFoldable graph.now fold.now) }
{
    match has_neighbours(alloc, graph, fold) {
        Err(error) => Err(error),
        Ok(fine) => {
            if fine {
                makes_graph(alloc, graph, fold)
            } else {
                Ok(false)
            }
        }
    }
}
