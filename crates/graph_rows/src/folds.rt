//! Two neighbours that become one segment: `foldable` shows the first two and how they are linked, `folds FIRST:SECOND singly=HEAD:NEXT:PREV:BACK` or `.. twofold=..`, or `folds nothing`. `folded`
//! shows the graph in which they are one segment as a post that has a graph alone, and else a post that has none.

use crate::steps::Came;
use cbase::{List, NoMemory};
use fold::{Fold, apply, foldable};
use graph::{Graph, Post};
use std::alloc::Global;

/// What is answered of the first two neighbours of a graph that fold, if it is asked.
pub fn folding(alloc: Global, kind: &str, graph: &Graph, fields: &[u32]) -> Result<Came, NoMemory> {
    if !fields.is_empty() {
        return Ok(Came::NoRow);
    }
    match kind {
        "foldable" => Ok(Came::Fold(foldable(alloc, graph)?)),
        "folded" => after_fold(alloc, graph),
        _ => Ok(Came::NoRow),
    }
}

fn after_fold(alloc: Global, graph: &Graph) -> Result<Came, NoMemory> {
    let mut graphs = List::new(alloc);
    if let Some(fold) = foldable(alloc, graph)? {
        graphs.push(apply(alloc, graph, &fold)?)?;
    }
    Ok(Came::Post(Post {
        graphs,
        kinds: List::new(alloc),
        loss: None,
    }))
}

/// The two neighbours of a fold and how they are linked, as text.
pub fn shown_fold(alloc: Global, fold: Option<Fold>) -> Result<String, NoMemory> {
    match fold {
        None => Ok(String::from_str(alloc, "folds nothing")?),
        Some(
            Fold {
                first,
                second,
                twofold,
                head,
                next,
                prev,
                back,
            },
        ) => {
            let name = if twofold { "twofold" } else { "singly" };
            Ok(format!(in alloc; "folds {first}:{second} {name}={head}:{next}:{prev}:{back}")?)
        }
    }
}
