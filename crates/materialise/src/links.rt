//! What is said of bytes, with a link more.
ghost use Rattle.std.specs.Prelude.{◌≡◌, ◌≤◌, ◌+◌, ◌++◌, true, length, nat_lt, OnOk, IfOk};
ghost use Rattle.std.specs.List.{filter};
ghost use Rattle.materialise.specs.SplitFirst.{with_edge, with_link};

use cbase::{List, NoMemory};
use changes::{class_for, is_zero};
use graph::{Edges, HasValue, Node, Value};
use std::alloc::Global;

/// Puts the edges that begin before a place behind others.
fn keep_low(edges: &[HasValue], at: u32, kept: &mut List<HasValue>) -> Result<(), NoMemory>
    ensures { OnOk result (kept.new ≡ kept.old ++ filter (λ other. nat_lt other.at at) edges.now) }
{
    let mut left = edges;
    while let [first, rest @ ..] = left {
        if first.at < at {
            kept.push(*first)?;
        }
        left = rest;
    }
    Ok(())
}

/// Puts the edges that begin behind a place behind others.
fn keep_high(edges: &[HasValue], at: u32, kept: &mut List<HasValue>) -> Result<(), NoMemory>
    ensures { OnOk result (kept.new ≡ kept.old ++ filter (λ other. nat_lt at other.at) edges.now) }
{
    let mut left = edges;
    while let [first, rest @ ..] = left {
        if at < first.at {
            kept.push(*first)?;
        }
        left = rest;
    }
    Ok(())
}

/// Edges with one more, in the order of their places.
fn with_edge(alloc: Global, edge: HasValue, edges: &[HasValue]) -> Result<Edges, NoMemory>
    ensures { IfOk result (λ after. after ≡ with_edge edge edges.now) }
{
    let mut kept = List::new(alloc);
    keep_low(edges, edge.at, &mut kept)?;
    kept.push(edge)?;
    keep_high(edges, edge.at, &mut kept)?;
    Edges::of(alloc, kept.as_slice())
}

/// What is said of bytes, with a link to a value in place of what was said of a range of which no edge tells.
pub(crate) fn with_link(
    alloc: Global,
    value: Value,
    link: HasValue,
    node: Node,
) -> Result<Node, NoMemory>
    requires inside { link.at + link.size ≤ length node.plane }
    ensures { IfOk result (λ after. after ≡ with_link value link node) }
{
    let Node { edges, plane } = node;
    let mut plane = plane;
    plane.fill(link.at, link.size as u32, class_for(value));
    if is_zero(value) {
        return Ok(Node { edges, plane });
    }
    match with_edge(alloc, link, edges.as_slice()) {
        Ok(edges) => Ok(Node { edges, plane }),
        Err(error) => {
            drop(plane);
            Err(error)
        }
    }
}
