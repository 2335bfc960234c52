//! Which neighbours the links of a graph name.
ghost use Rattle.std.specs.Prelude.{◌≡◌, ◌++◌, [], ◌∷◌, true, false, IfOk, OnOk};
ghost use Rattle.std.specs.Option.{option_map_or};
ghost use Rattle.graph.specs.Maps.{object_at};
ghost use Rattle.fold.specs.Candidates.{place_of, place_in, place_at, twofold_at, twofold_folds, folds_behind, folds_of, folds_with, folds_to, folds_at, folds_along, folds_by, folds_in, candidates};

use crate::fold::Fold;
use cbase::{List, NoMemory};
use graph::{Graph, HasValue, Object, Shape, Value};
use std::alloc::Global;

/// An offset as a place in a node.
fn place_of(offset: i64) -> Option<u32>
    ensures { result ≡ place_of offset }
{
    if offset < 0 {
        return None;
    }
    if offset < 4294967296 {
        Some(offset as u32)
    } else {
        None
    }
}

/// The place to which the address of an object leads.
fn place_in(key: u32, value: Value) -> Option<u32>
    ensures { result ≡ place_in key value }
{
    match value {
        Value::Address { object, offset, .. } => {
            if object == key {
                place_of(offset)
            } else {
                None
            }
        }
        _ => None,
    }
}

fn place_at(graph: &Graph, key: u32, value: u32) -> Option<u32>
    ensures { result ≡ place_at graph.now key value }
{
    match graph.value(value) {
        None => None,
        Some(value) => place_in(key, *value),
    }
}

/// Puts the fold that an edge of the second region asks for, if it leads back, behind others.
fn push_back(
    graph: &Graph,
    first: u32,
    second: u32,
    head: u32,
    next: u32,
    edge: &HasValue,
    kept: &mut List<Fold>,
) -> Result<(), NoMemory>
    ensures { OnOk result (kept.new ≡ kept.old ++ twofold_at graph.now first second head next edge.now) }
{
    if next < edge.at && edge.size == 8 {
        match place_at(graph, first, edge.value) {
            None => Ok(()),
            Some(back) => kept.push(Fold {
                first,
                second,
                twofold: true,
                head,
                next,
                prev: edge.at,
                back,
            }),
        }
    } else {
        Ok(())
    }
}

fn push_twofold(
    graph: &Graph,
    first: u32,
    second: u32,
    head: u32,
    next: u32,
    edges: &[HasValue],
    kept: &mut List<Fold>,
) -> Result<(), NoMemory>
    ensures { OnOk result (kept.new ≡ kept.old ++ twofold_folds graph.now first second head next edges.now) }
{
    let mut left = edges;
    while let [edge, rest @ ..] = left {
        push_back(graph, first, second, head, next, edge, kept)?;
        left = rest;
    }
    Ok(())
}

/// Puts the folds of two regions behind others.
fn push_regions(
    graph: &Graph,
    first: u32,
    second: u32,
    head: u32,
    next: u32,
    edges: &[HasValue],
    kept: &mut List<Fold>,
) -> Result<(), NoMemory>
    ensures { OnOk result (kept.new ≡ kept.old ++ (twofold_folds graph.now first second head next edges.now ++ record { first = first; second = second; twofold = false; head = head; next = next; prev = 0; back = 0 } ∷ [])) }
{
    match push_twofold(graph, first, second, head, next, edges, kept) {
        Err(error) => Err(error),
        Ok(()) => kept.push(Fold {
            first,
            second,
            twofold: false,
            head,
            next,
            prev: 0,
            back: 0,
        }),
    }
}

/// Puts the folds of a region and of what stands behind it behind others.
fn push_behind(
    graph: &Graph,
    first: u32,
    second: u32,
    head: u32,
    next: u32,
    other: &Object,
    kept: &mut List<Fold>,
) -> Result<(), NoMemory>
    ensures { OnOk result (kept.new ≡ kept.old ++ folds_behind graph.now first second head next other.now.shape other.now.edges) }
{
    match &other.shape {
        Shape::Region => push_regions(
            graph,
            first,
            second,
            head,
            next,
            other.edges.as_slice(),
            kept,
        ),
        Shape::Segment {
            twofold,
            prev,
            back,
            ..
        } => kept.push(Fold {
            first,
            second,
            twofold: *twofold,
            head,
            next,
            prev: *prev,
            back: *back,
        }),
    }
}

/// Puts the folds of two objects behind others.
fn push_of(
    graph: &Graph,
    first: u32,
    second: u32,
    head: u32,
    next: u32,
    object: &Object,
    other: &Object,
    kept: &mut List<Fold>,
) -> Result<(), NoMemory>
    ensures { OnOk result (kept.new ≡ kept.old ++ folds_of graph.now first second head next object.now.shape other.now.shape other.now.edges) }
{
    match &object.shape {
        Shape::Region => push_behind(graph, first, second, head, next, other, kept),
        Shape::Segment {
            twofold,
            prev,
            back,
            ..
        } => kept.push(Fold {
            first,
            second,
            twofold: *twofold,
            head,
            next,
            prev: *prev,
            back: *back,
        }),
    }
}

fn push_with(
    graph: &Graph,
    first: u32,
    second: u32,
    head: u32,
    next: u32,
    object: &Object,
    kept: &mut List<Fold>,
) -> Result<(), NoMemory>
    ensures { OnOk result (kept.new ≡ kept.old ++ folds_with graph.now first second head next object.now (object_at graph.now.objects second)) }
{
    match graph.object(second) {
        None => Ok(()),
        Some(other) => {
            if other.size == object.size {
                push_of(graph, first, second, head, next, object, other, kept)
            } else {
                Ok(())
            }
        }
    }
}

fn push_to(
    graph: &Graph,
    first: u32,
    next: u32,
    object: &Object,
    second: u32,
    offset: i64,
    kept: &mut List<Fold>,
) -> Result<(), NoMemory>
    ensures { OnOk result (kept.new ≡ kept.old ++ folds_to graph.now first next object.now second (place_of offset)) }
{
    match place_of(offset) {
        None => Ok(()),
        Some(head) => push_with(graph, first, second, head, next, object, kept),
    }
}

/// Puts the folds that a value asks for, which an object holds at a place, behind others.
fn push_at(
    graph: &Graph,
    first: u32,
    object: &Object,
    next: u32,
    value: u32,
    kept: &mut List<Fold>,
) -> Result<(), NoMemory>
    ensures { OnOk result (kept.new ≡ kept.old ++ folds_at graph.now first object.now next value) }
{
    match graph.value(value) {
        None => Ok(()),
        Some(value) => match *value {
            Value::Address {
                object: second,
                offset,
                ..
            } => push_to(graph, first, next, object, second, offset, kept),
            _ => Ok(()),
        },
    }
}

/// Puts the folds that the edges of a region ask for behind others.
fn push_along(
    graph: &Graph,
    first: u32,
    object: &Object,
    edges: &[HasValue],
    kept: &mut List<Fold>,
) -> Result<(), NoMemory>
    ensures { OnOk result (kept.new ≡ kept.old ++ folds_along graph.now first object.now edges.now) }
{
    let mut left = edges;
    while let [edge, rest @ ..] = left {
        if edge.size == 8 {
            push_at(graph, first, object, edge.at, edge.value, kept)?;
        }
        left = rest;
    }
    Ok(())
}

/// Puts the folds that an object asks for behind others.
fn push_by(
    graph: &Graph,
    first: u32,
    object: &Object,
    kept: &mut List<Fold>,
) -> Result<(), NoMemory>
    ensures { OnOk result (kept.new ≡ kept.old ++ folds_by graph.now first object.now object.now.shape) }
{
    match &object.shape {
        Shape::Region => push_along(graph, first, object, object.edges.as_slice(), kept),
        Shape::Segment {
            next,
            next_value,
            ..
        } => push_at(graph, first, object, *next, *next_value, kept),
    }
}

/// Puts the folds that the object at a key asks for behind others.
fn push_from(graph: &Graph, key: u32, kept: &mut List<Fold>) -> Result<(), NoMemory>
    ensures { OnOk result (kept.new ≡ kept.old ++ option_map_or (λ object. folds_by graph.now key object object.shape) (object_at graph.now.objects key) []) }
{
    match graph.object(key) {
        None => Ok(()),
        Some(object) => push_by(graph, key, object, kept),
    }
}

/// Puts the folds that the links of a graph name into an empty list, in the order of keys and then of places.
#[tactic(auto, using(crate::proofs::Entries::folds_next, crate::proofs::Entries::folds_done))]
fn push_all(graph: &Graph, kept: &mut List<Fold>) -> Result<(), NoMemory>
    requires empty { kept.old ≡ [] }
    ensures { OnOk result (kept.new ≡ candidates graph.now) }
{
    for key in 0..graph.object_count() {
        push_from(graph, key, kept)?;
    }
    Ok(())
}

/// The folds that the links of a graph name.
pub(crate) fn candidates(alloc: Global, graph: &Graph) -> Result<List<Fold>, NoMemory>
    ensures { IfOk result (λ folds. folds ≡ candidates graph.now) }
{
    let mut kept = List::new(alloc);
    push_all(graph, &mut kept)?;
    Ok(kept)
}
