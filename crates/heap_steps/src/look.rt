//! What a look for lost blocks comes to.
ghost use Rattle.std.specs.Prelude.{◌≡◌, [], ◌∷◌, IfOk};
ghost use Rattle.graph.specs.Whole.{IsGraph};
ghost use Rattle.changes.specs.Posted.{IsPost};
ghost use Rattle.heap_steps.specs.Looking.{looked};

use crate::anywhere::may_lead_anywhere;
use crate::lost::unreached;
use cbase::{List, NoMemory};
use changes::without_graph;
use graph::{Graph, Parts, Post, built};
use std::alloc::Global;

/// The graph of some parts that are those of one.
#[tactic(auto, using(changes::proofs::Built::built_same))]
fn graph_of_parts(alloc: Global, parts: Parts) -> Result<Graph, NoMemory>
    requires graph { IsGraph parts }
    ensures { IfOk result (λ graph. graph ≡ parts) }
{
    match built(alloc, parts) {
        Ok(graph) => Ok(graph),
        Err(_) => Err(NoMemory),
    }
}

/// A post with one graph.
pub(crate) fn with_graph(
    alloc: Global,
    graph: Graph,
    kinds: &[u8],
    loss: Option<u8>,
) -> Result<Post, NoMemory>
    ensures { IfOk result (λ post. IsPost (record { graphs = graph ∷ []; kinds = kinds.now; loss = loss }) post) }
{
    let kinds = List::from_vec(Vec::from_slice(alloc, kinds)?);
    let mut graphs = List::new(alloc);
    match graphs.push(graph) {
        Ok(()) => Ok(Post {
            graphs,
            kinds,
            loss,
        }),
        Err(error) => {
            drop(graphs);
            Err(error)
        }
    }
}

/// The post of a look for lost blocks in a graph.
fn look_in(alloc: Global, graph: Graph) -> Result<Post, NoMemory>
    requires graph { IsGraph graph }
    ensures { IfOk result (λ post. IsPost (looked graph) post) }
{
    let lost = unreached(alloc, &graph)?;
    let none = lost.is_empty();
    if none {
        let all = with_graph(alloc, graph, &[], None);
        return all;
    }
    let anywhere = may_lead_anywhere(alloc, &graph)?;
    if anywhere {
        let some = with_graph(alloc, graph, &[7], Some(3));
        return some;
    }
    drop(graph);
    let fault = without_graph(alloc, &[7], None);
    fault
}

/// The post of a look for lost blocks in the graph of some parts.
pub(crate) fn look(alloc: Global, parts: Parts) -> Result<Post, NoMemory>
    requires graph { IsGraph parts }
    ensures { IfOk result (λ post. IsPost (looked parts) post) }
{
    let graph = graph_of_parts(alloc, parts)?;
    look_in(alloc, graph)
}
