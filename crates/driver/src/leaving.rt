//! Posts without what nothing holds.
ghost use Rattle.std.specs.Prelude.{IfOk};
ghost use Rattle.driver.specs.Leaving.{IsWhatIsLeft, AreLeft, IsLeft};

use cbase::{List, NoMemory};
use graph::{Graph, Post};
use std::alloc::Global;
use tidying::into_tidied;

/// A graph without what nothing holds.
pub(crate) fn left_graph(alloc: Global, graph: Graph) -> Result<Graph, NoMemory>
    ensures { IfOk result (λ left. IsWhatIsLeft graph left) }
{
    let _ = graph.value_count();
    match into_tidied(alloc, graph) {
        Ok(left) => Ok(left),
        Err(error) => Err(error),
    }
}

/// Graphs, each without what nothing holds.
#[tactic(auto, using(crate::proofs::Left::none_left))]
fn left_graphs(alloc: Global, graphs: List<Graph>) -> Result<List<Graph>, NoMemory>
    ensures { IfOk result (λ left. AreLeft graphs left) }
{
    let mut left = List::new(alloc);
    for graph in graphs.into_vec() {
        left.push(left_graph(alloc, graph)?)?;
    }
    Ok(left)
}

/// A post without what nothing holds.
pub(crate) fn left_post(alloc: Global, post: Post) -> Result<Post, NoMemory>
    ensures { IfOk result (λ left. IsLeft post left) }
{
    let Post {
        graphs,
        kinds,
        loss,
    } = post;
    match left_graphs(alloc, graphs) {
        Ok(graphs) => Ok(Post {
            graphs,
            kinds,
            loss,
        }),
        Err(error) => {
            drop(kinds);
            Err(error)
        }
    }
}
