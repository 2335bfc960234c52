//! Posts: what a step comes to, as the code gives it.
ghost use Rattle.std.specs.Prelude.{◌≡◌, [], ◌∷◌, None, IfOk};
ghost use Rattle.graph.specs.Whole.{IsGraph};
ghost use Rattle.changes.specs.Parts.{without_registers};
ghost use Rattle.changes.specs.Posted.{IsPost, reach_faults};

use crate::reach::Reach;
use crate::registers::without_registers;
use cbase::{List, NoMemory, Stop};
use graph::{Graph, Parts, Post, built};
use std::alloc::Global;

/// A post without a graph.
pub fn without_graph(alloc: Global, kinds: &[u8], loss: Option<u8>) -> Result<Post, NoMemory>
    ensures { IfOk result (λ post. IsPost (record { graphs = []; kinds = kinds.now; loss = loss }) post) }
{
    let kinds = List::from_vec(Vec::from_slice(alloc, kinds)?);
    Ok(Post {
        graphs: List::new(alloc),
        kinds,
        loss,
    })
}

/// A post with the graph of some parts.
pub fn with_graph(alloc: Global, parts: Parts, loss: Option<u8>) -> Result<Post, NoMemory>
    requires graph { IsGraph parts }
    ensures { IfOk result (λ post. IsPost (record { graphs = parts ∷ []; kinds = []; loss = loss }) post) }
{
    match built(alloc, parts) {
        Ok(graph) => {
            let mut graphs = List::new(alloc);
            match graphs.push(graph) {
                Ok(()) => Ok(Post {
                    graphs,
                    kinds: List::new(alloc),
                    loss,
                }),
                Err(error) => {
                    drop(graphs);
                    Err(error)
                }
            }
        }
        Err(_) => Err(NoMemory),
    }
}

/// The post of a step that empties registers, and does nothing else.
pub fn emptied_post(alloc: Global, graph: &Graph, gone: &[u32]) -> Result<Post, NoMemory>
    ensures { IfOk result (λ post. IsPost (record { graphs = without_registers gone.now graph.now ∷ []; kinds = []; loss = None }) post) }
{
    match graph.parts(alloc) {
        Err(error) => Err(error),
        Ok(parts) => match without_registers(alloc, parts, gone) {
            Err(error) => Err(error),
            Ok(after) => with_graph(alloc, after, None),
        },
    }
}

/// The post of an access that leads to no object.
pub fn fault_post(alloc: Global, reach: Reach) -> Result<Post, NoMemory>
    ensures { IfOk result (λ post. IsPost (reach_faults reach) post) }
{
    match reach {
        Reach::Nothing => without_graph(alloc, &[], None),
        Reach::Fault(kind) => without_graph(alloc, &[kind], None),
        Reach::Number { small: true } => without_graph(alloc, &[1, 4], None),
        Reach::Number { small: false } => without_graph(alloc, &[4], None),
        Reach::Anything { live: true } => without_graph(alloc, &[1, 2, 3, 4], Some(4)),
        Reach::Anything { live: false } => without_graph(alloc, &[1, 3, 4], Some(4)),
        Reach::Room { .. } => without_graph(alloc, &[], None),
    }
}
