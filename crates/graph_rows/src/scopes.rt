//! Steps that begin and leave scopes, and that end a run: `enter VARIABLE:SIZE ..` and `leave VARIABLE ..`, of two variables at most, and `close`.
ghost use Rattle.std.specs.Prelude.{◌≡◌, is_some};
ghost use Rattle.std.specs.List.{list_all};
ghost use Rattle.graph.specs.Maps.{storage_of};
ghost use Rattle.heap_steps.specs.Closing.{has_a_block, none_is_empty};

use crate::steps::{Came, come};
use block_steps::enter;
use cbase::NoMemory;
use graph::{Graph, KeyedObject, Named, Shape};
use heap_steps::{close, leave};
use std::alloc::Global;

/// The post of such a step, if it is one.
pub fn scoped(alloc: Global, kind: &str, graph: &Graph, fields: &[u32]) -> Result<Came, NoMemory> {
    match kind {
        "enter" => entering(alloc, graph, fields),
        "leave" => leaving(alloc, graph, fields),
        "close" => closing(alloc, graph, fields),
        _ => Ok(Came::NoRow),
    }
}

/// Whether a variable stands among others.
fn is_named(variables: &[Named], variable: u32) -> bool
    ensures { result ≡ is_some (storage_of variables.now variable) }
{
    let mut left = variables;
    while let [first, rest @ ..] = left {
        if first.variable == variable {
            return true;
        }
        left = rest;
    }
    false
}

fn entering(alloc: Global, graph: &Graph, fields: &[u32]) -> Result<Came, NoMemory> {
    match fields {
        [] => come(enter(alloc, graph, &[], &[])),
        [one, size] => {
            if is_named(graph.variables(), *one) || *size > 65_536 {
                return Ok(Came::NoRow);
            }
            come(enter(alloc, graph, &[*one], &[*size]))
        }
        [one, size, other, next] => {
            let named = is_named(graph.variables(), *one) || is_named(graph.variables(), *other);
            if named || *one == *other || *size > 65_536 || *next > 65_536 {
                return Ok(Came::NoRow);
            }
            come(enter(alloc, graph, &[*one, *other], &[*size, *next]))
        }
        _ => Ok(Came::NoRow),
    }
}

fn leaving(alloc: Global, graph: &Graph, fields: &[u32]) -> Result<Came, NoMemory> {
    match fields {
        [] => come(leave(alloc, graph, &[])),
        [one] => {
            if !is_named(graph.variables(), *one) {
                return Ok(Came::NoRow);
            }
            come(leave(alloc, graph, &[*one]))
        }
        [one, other] => {
            let named = is_named(graph.variables(), *one) && is_named(graph.variables(), *other);
            if !named || *one == *other {
                return Ok(Came::NoRow);
            }
            come(leave(alloc, graph, &[*one, *other]))
        }
        _ => Ok(Came::NoRow),
    }
}

/// Whether an object stands for a block at least.
fn has_a_block(shape: &Shape) -> bool
    ensures { result ≡ has_a_block shape.now }
{
    match shape {
        Shape::Region => true,
        Shape::Segment { least, .. } => *least >= 1,
    }
}

/// Whether each object does.
fn none_is_empty(objects: &[KeyedObject]) -> bool
    ensures { result ≡ list_all (λ entry. has_a_block entry.object.shape) objects.now }
{
    let mut left = objects;
    while let [first, rest @ ..] = left {
        if !has_a_block(&first.object.shape) {
            return false;
        }
        left = rest;
    }
    true
}

fn closing(alloc: Global, graph: &Graph, fields: &[u32]) -> Result<Came, NoMemory> {
    if !fields.is_empty() {
        return Ok(Came::NoRow);
    }
    let parts = graph.parts(alloc)?;
    let closes = none_is_empty(parts.objects.as_slice());
    drop(parts);
    if closes {
        come(close(alloc, graph))
    } else {
        Ok(Came::NoRow)
    }
}
