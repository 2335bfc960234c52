//! The end of a run on a graph whose segments may be empty.
ghost use Rattle.std.specs.Prelude.{◌≡◌, not, [], ◌∷◌, IfOk, IfErr, Some};
ghost use Rattle.std.specs.List.{list_any};
ghost use Rattle.bytes_core.specs.Fault.{block_never_freed};
ghost use Rattle.changes.specs.Posted.{IsPost};
ghost use Rattle.graph.specs.Whole.{IsGraph};
ghost use Rattle.heap_steps.specs.Closing.{has_a_block};
ghost use Rattle.transfer.specs.Ending.{end_post};
ghost use Rattle.transfer.specs.Means.{EndMeans};

use cbase::{NoMemory, Stop};
use changes::with_graph;
use graph::{Graph, Object, Post};
use heap_steps::close;
use std::alloc::Global;

/// Whether an object may stand for no block.
fn may_be_empty(object: &Object) -> bool
    ensures { result ≡ not (has_a_block object.now.shape) }
{
    match object.shape.links() {
        None => false,
        Some(links) => links.least == 0,
    }
}

/// Whether some object of a graph may.
fn some_may_be_empty(graph: &Graph) -> bool
    ensures { result ≡ list_any (λ entry. not (has_a_block entry.object.shape)) graph.now.objects }
{
    let count = graph.object_count();
    for key in 0..count {
        match graph.object(key) {
            None => unreachable!(),
            Some(object) => {
                if may_be_empty(object) {
                    return true;
                }
            }
        }
    }
    false
}

/// The post of the end of a run where some segment may be empty.
fn perhaps_left(alloc: Global, graph: &Graph) -> Result<Post, NoMemory>
    ensures { IfOk result (λ post. IsPost (record { graphs = graph.now ∷ []; kinds = block_never_freed ∷ []; loss = Some 3 }) post) }
{
    let _ = graph.object_count();
    let parts = graph.parts(alloc)?;
    let mut post = with_graph(alloc, parts, Some(3))?;
    match post.kinds.push(9) {
        Ok(()) => Ok(post),
        Err(error) => {
            drop(post);
            Err(error)
        }
    }
}

/// The same, as the answer of a step.
fn perhaps_end(alloc: Global, graph: &Graph) -> Result<Post, Stop>
    ensures post { IfOk result (λ post. IsPost (record { graphs = graph.now ∷ []; kinds = block_never_freed ∷ []; loss = Some 3 }) post) }
    ensures small { IfErr result (λ stop. stop ≡ Stop.NoMemory) }
{
    match perhaps_left(alloc, graph) {
        Ok(post) => Ok(post),
        Err(NoMemory) => Err(Stop::NoMemory),
    }
}

/// The end of a run in strict mode. Where a segment may be empty kind 9 is listed, as some memory has a block of it, and loss 3 is named; else all is as
/// `close` has it.
pub(crate) fn end(alloc: Global, graph: &Graph) -> Result<Post, Stop>
    ensures post { IfOk result (λ post. IsPost (end_post graph.now) post) }
    ensures means { IfOk result (λ post. EndMeans graph.now post) }
    ensures small { IfErr result (λ stop. stop ≡ Stop.NoMemory) }
{
    let _ = graph.object_count();
    let some = some_may_be_empty(graph);
    if some {
        return perhaps_end(alloc, graph);
    }
    close(alloc, graph)
}
