//! Graphs in which constants beyond a limit are forgotten: `coarse LIMIT`. Where there is such a constant the graph without it is shown as a post that has a graph alone, and else a post
//! that has none.

use crate::steps::Came;
use cbase::{List, NoMemory};
use coarse::{coarse, is_coarse};
use graph::{Graph, Post};
use std::alloc::Global;

/// What is left of a graph with such a limit, if it is one.
pub fn limited(alloc: Global, graph: &Graph, fields: &[u32]) -> Result<Came, NoMemory> {
    match fields {
        [limit] => forgetting(alloc, graph, *limit),
        _ => Ok(Came::NoRow),
    }
}

fn forgetting(alloc: Global, graph: &Graph, limit: u32) -> Result<Came, NoMemory> {
    let mut graphs = List::new(alloc);
    if !is_coarse(alloc, graph, limit)? {
        graphs.push(coarse(alloc, graph, limit)?)?;
    }
    Ok(Came::Post(Post {
        graphs,
        kinds: List::new(alloc),
        loss: None,
    }))
}
