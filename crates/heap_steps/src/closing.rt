//! The end of a run, where no block of the heap may be left.
ghost use Rattle.std.specs.Prelude.{◌≡◌, true, IfErr, IfOk};
ghost use Rattle.graph.specs.Whole.{IsGraph};
ghost use Rattle.changes.specs.Following.{StepMeans};
ghost use Rattle.changes.specs.Posted.{IsPost};
ghost use Rattle.heap_steps.specs.Closing.{Closes, FaultsClosing, is_live_heap, has_live_heap, none_is_empty, close_post};

use crate::lost::is_heap;
use cbase::{NoMemory, Stop};
use changes::{with_graph, without_graph};
use graph::{Graph, Object, Post};
use std::alloc::Global;

/// Whether an object is live and allocated.
fn is_live_heap(object: &Object) -> bool
    ensures { result ≡ is_live_heap object.now }
{
    if object.live {
        is_heap(object.kind)
    } else {
        false
    }
}

/// Whether a graph has a live object of the heap.
fn has_live_heap(graph: &Graph) -> bool
    ensures { result ≡ has_live_heap graph.now }
{
    let count = graph.object_count();
    for key in 0..count {
        match graph.object(key) {
            None => unreachable!(),
            Some(object) => {
                if is_live_heap(object) {
                    return true;
                }
            }
        }
    }
    false
}

/// The post of the end of a run.
fn closed(alloc: Global, graph: &Graph) -> Result<Post, NoMemory>
    ensures post { IfOk result (λ post. IsPost (close_post graph.now) post) }
    ensures graph { IsGraph graph.now }
{
    let _ = graph.object_count();
    let some = has_live_heap(graph);
    if some {
        let fault = without_graph(alloc, &[9], None);
        return fault;
    }
    let parts = graph.parts(alloc)?;
    with_graph(alloc, parts, None)
}

/// The end of a run in strict mode: no block of the heap may live.
///
/// Kind 9 is listed exactly where there is a live object of the heap. Else the one graph of the post is the graph itself, which stands
/// for exactly the states that follow. No loss is named. Segments that may be empty are dropped first, or have a node at least.
pub fn close(alloc: Global, graph: &Graph) -> Result<Post, Stop>
    requires segments { none_is_empty graph.now ≡ true }
    ensures post { IfOk result (λ post. IsPost (close_post graph.now) post) }
    ensures means { IfOk result (λ post. StepMeans graph.now Closes FaultsClosing (λ after. after ≡ graph.now) post) }
    ensures small { IfErr result (λ stop. stop ≡ Stop.NoMemory) }
{
    match closed(alloc, graph) {
        Ok(post) => Ok(post),
        Err(NoMemory) => Err(Stop::NoMemory),
    }
}
