//! Splits of a segment into the cases that it may be: `dropped OBJECT`, `first OBJECT` and `last OBJECT`. What comes out is shown as a post that has graphs alone.

use crate::steps::Came;
use cbase::{List, NoMemory, Stop};
use graph::{Graph, Post};
use materialise::{drop_segment, first_node, is_segment, is_twofold, last_node, may_be_empty};
use std::alloc::Global;

/// The cases of such a split, if it is one.
pub fn splitting(
    alloc: Global,
    kind: &str,
    graph: &Graph,
    fields: &[u32],
) -> Result<Came, NoMemory> {
    match fields {
        [key] => match kind {
            "dropped" => dropping(alloc, graph, *key),
            "first" => parting_first(alloc, graph, *key),
            "last" => parting_last(alloc, graph, *key),
            _ => Ok(Came::NoRow),
        },
        _ => Ok(Came::NoRow),
    }
}

/// A post that has graphs alone.
fn only(alloc: Global, graphs: List<Graph>) -> Came {
    Came::Post(Post {
        graphs,
        kinds: List::new(alloc),
        loss: None,
    })
}

fn dropping(alloc: Global, graph: &Graph, key: u32) -> Result<Came, NoMemory> {
    if !may_be_empty(graph, key) {
        return Ok(Came::NoRow);
    }
    match drop_segment(alloc, graph, key) {
        Ok(after) => {
            let mut graphs = List::new(alloc);
            graphs.push(after)?;
            Ok(only(alloc, graphs))
        }
        Err(_) => Err(NoMemory),
    }
}

/// The cases by a first node, or by a last one, if the graph that has most of them is not too large.
fn parted(alloc: Global, cases: Result<List<Graph>, Stop>) -> Result<Came, NoMemory> {
    match cases {
        Ok(graphs) => Ok(only(alloc, graphs)),
        Err(Stop::Large) => Ok(Came::NoRow),
        Err(Stop::NoMemory) => Err(NoMemory),
    }
}

fn parting_first(alloc: Global, graph: &Graph, key: u32) -> Result<Came, NoMemory> {
    if !is_segment(graph, key) {
        return Ok(Came::NoRow);
    }
    parted(alloc, first_node(alloc, graph, key))
}

fn parting_last(alloc: Global, graph: &Graph, key: u32) -> Result<Came, NoMemory> {
    if !is_twofold(graph, key) {
        return Ok(Came::NoRow);
    }
    parted(alloc, last_node(alloc, graph, key))
}
