//! A graph without what nothing holds.
ghost use Rattle.std.specs.Prelude.{◌≡◌, ◌↔◌, IfOk};
ghost use Rattle.graph.specs.Meaning.{StandsFor};
ghost use Rattle.graph.specs.State.{State};
ghost use Rattle.graph.specs.Unheld.{with_only};
ghost use Rattle.graph.specs.Whole.{IsGraph};
ghost use Rattle.tidying.specs.Held.{stays, object_stays};
ghost use Rattle.tidying.specs.Tidied.{tidied};

use crate::keeping::with_marked;
use crate::objects::object_marks;
use crate::values::value_marks;
use cbase::{NoMemory, Stop};
use graph::{Graph, Parts, built};
use std::alloc::Global;

/// What stays of parts.
fn kept(alloc: Global, parts: Parts) -> Result<Parts, NoMemory>
    requires { IsGraph parts }
    ensures { IfOk result (λ kept. kept ≡ with_only (stays parts) (object_stays parts) parts) }
{
    match value_marks(alloc, &parts) {
        Err(error) => {
            drop(parts);
            Err(error)
        }
        Ok(values) => match object_marks(alloc, &parts, values.as_slice()) {
            Err(error) => {
                drop(parts);
                Err(error)
            }
            Ok(objects) => with_marked(alloc, parts, values.as_slice(), objects.as_slice()),
        },
    }
}

/// The graph of what stays of parts.
fn tidied_parts(alloc: Global, parts: Parts) -> Result<Graph, NoMemory>
    requires { IsGraph parts }
    ensures { IfOk result (λ after. after ≡ tidied parts) }
{
    match kept(alloc, parts) {
        Err(error) => Err(error),
        Ok(kept) => match built(alloc, kept) {
            Ok(after) => Ok(after),
            Err(Stop::NoMemory) => Err(NoMemory),
            Err(Stop::Large) => unreachable!(),
        },
    }
}

/// A graph without what nothing holds: values that no edge, link, register or port holds, with their unequal pairs, and dead objects of which no address
/// stays. A constant stays that a held value is told apart from. What stays keeps its order. It takes time in proportion to the graph, and to the
/// logarithm of its size for each key.
pub fn tidied(alloc: Global, graph: &Graph) -> Result<Graph, NoMemory>
    ensures ok { IfOk result (λ after. after ≡ tidied graph.now) }
    ensures means { IfOk result (λ after. (state : State) → (StandsFor after state ↔ StandsFor graph.now state)) }
{
    match graph.parts(alloc) {
        Err(error) => Err(error),
        Ok(parts) => tidied_parts(alloc, parts),
    }
}

/// The same of a graph that is given up: its objects and lists are moved, and not copied.
pub fn into_tidied(alloc: Global, graph: Graph) -> Result<Graph, NoMemory>
    ensures ok { IfOk result (λ after. after ≡ tidied graph) }
    ensures means { IfOk result (λ after. (state : State) → (StandsFor after state ↔ StandsFor graph state)) }
{
    match graph.into_parts(alloc) {
        Err(error) => Err(error),
        Ok(parts) => tidied_parts(alloc, parts),
    }
}
