//! Two neighbours become one segment.
ghost use Rattle.std.specs.Prelude.{◌≡◌, IfOk, OnOk};
ghost use Rattle.graph.specs.Meaning.{StandsFor};
ghost use Rattle.graph.specs.Renaming.{numbered};
ghost use Rattle.graph.specs.State.{State};
ghost use Rattle.graph.specs.WellFormed.{IsWellFormed, HasAscendingKeys, is_within_limits};
ghost use Rattle.graph.specs.Whole.{IsGraph};
ghost use Rattle.materialise.specs.Kept.{HoldsAsBefore};
ghost use Rattle.materialise.specs.WithOne.{HaveOffsets};
ghost use Rattle.fold.specs.Foldable.{IsFoldable};
ghost use Rattle.fold.specs.Folded.{folded};

use crate::fold::Fold;
use crate::folding::folded;
use cbase::NoMemory;
use graph::{Graph, Parts, built};
use materialise::offsets_fit;
use std::alloc::Global;

/// The parts of the folded graph. The offsets of the graph's addresses are numbers of 64 bits.
fn folded_parts(alloc: Global, graph: &Graph, fold: &Fold) -> Result<Parts, NoMemory>
    requires { IsFoldable graph.now fold.now }
    ensures ok { IfOk result (λ after. after ≡ folded fold.now graph.now) }
    ensures graph { IsGraph graph.now }
    ensures offsets { OnOk result (HaveOffsets graph.now.values) }
{
    match graph.parts(alloc) {
        Err(error) => Err(error),
        Ok(parts) => {
            offsets_fit(parts.values.as_slice());
            drop(parts);
            folded(alloc, graph, fold)
        }
    }
}

/// The graph in which the two neighbours of a fold are one segment. Its least number of nodes is the sum of both, where a region counts for one. What lies behind
/// the second one lies behind it, and, where nodes are linked both ways, what lies before the first one before it. Of each node is said what is said of both:
/// values that are the same, own addresses, and the greater class of each byte.
///
/// It stands for each state for which the graph stands, names the same variables, and holds values of the same sizes in the same registers and ports. It takes
/// time in proportion to the graph, to the logarithm of its size for each key, and to the product of the edges of the two.
#[tactic(auto, using(crate::proofs::Holds::folded_means, crate::proofs::Holds::folded_holds))]
pub fn apply(alloc: Global, graph: &Graph, fold: &Fold) -> Result<Graph, NoMemory>
    requires { IsFoldable graph.now fold.now }
    ensures ok { IfOk result (λ after. after ≡ numbered (folded fold.now graph.now)) }
    ensures means { IfOk result (λ after. (state : State) → StandsFor graph.now state → StandsFor after state) }
    ensures holds { IfOk result (λ after. HoldsAsBefore graph.now after) }
{
    match folded_parts(alloc, graph, fold) {
        Err(error) => Err(error),
        Ok(parts) => match built(alloc, parts) {
            Ok(after) => Ok(after),
            Err(_) => Err(NoMemory),
        },
    }
}
