//! What is said of each node of the segment that two neighbours become.
ghost use Rattle.std.specs.Prelude.{◌≡◌, ◌≤◌, ◌<◌, ◌+◌, ◌++◌, true, length, IfOk, OnOk};
ghost use Rattle.graph.specs.Nodes.{node_of};
ghost use Rattle.graph.specs.Renaming.{values_from};
ghost use Rattle.fold.specs.Folded.{joined, own_addresses, linked_plane, joined_plane};
ghost use Rattle.fold.specs.Standing.{standing};

use crate::fold::{Fold, Standing};
use crate::standing::standing;
use cbase::{List, NoMemory};
use graph::{Edges, Graph, HasValue, KeyedValue, Object, Shape, Target, Value};
use planes::Plane;
use std::alloc::Global;

/// Puts the edges of each node behind others. Own addresses have keys from one on.
fn push_joined(
    graph: &Graph,
    fold: &Fold,
    behind: &[HasValue],
    from: u32,
    edges: &[HasValue],
    kept: &mut List<HasValue>,
) -> Result<(), NoMemory>
    requires few { from + length edges.now < 4294967296 }
    ensures { OnOk result (kept.new ≡ kept.old ++ joined (standing graph.now fold.now behind.now) from edges.now) }
{
    let mut fresh = from;
    let mut left = edges;
    while let [first, rest @ ..] = left {
        match standing(graph, fold, behind, first) {
            Standing::Same => kept.push(*first)?,
            Standing::Own { .. } => {
                kept.push(HasValue {
                    at: first.at,
                    size: first.size,
                    value: fresh,
                })?;
                fresh += 1;
            }
            Standing::Apart => {}
            Standing::Barred => {}
        }
        left = rest;
    }
    Ok(())
}

/// The edges of each node.
pub(crate) fn joined_edges(
    alloc: Global,
    graph: &Graph,
    fold: &Fold,
    behind: &[HasValue],
    from: u32,
    edges: &[HasValue],
) -> Result<Edges, NoMemory>
    requires few { from + length edges.now < 4294967296 }
    ensures { IfOk result (λ after. after ≡ joined (standing graph.now fold.now behind.now) from edges.now) }
{
    let mut kept = List::new(alloc);
    push_joined(graph, fold, behind, from, edges, &mut kept)?;
    Edges::of(alloc, kept.as_slice())
}

/// Puts own addresses, with keys from one on, behind values.
pub(crate) fn push_own(
    graph: &Graph,
    fold: &Fold,
    behind: &[HasValue],
    from: u32,
    edges: &[HasValue],
    values: &mut List<KeyedValue>,
) -> Result<(), NoMemory>
    requires few { from + length edges.now < 4294967296 }
    ensures { OnOk result (values.new ≡ values.old ++ values_from from (own_addresses fold.now.first (standing graph.now fold.now behind.now) edges.now)) }
{
    let mut key = from;
    let mut left = edges;
    while let [first, rest @ ..] = left {
        match standing(graph, fold, behind, first) {
            Standing::Own { offset } => {
                values.push(KeyedValue {
                    key,
                    value: Value::Address {
                        object: fold.first,
                        offset,
                        target: Target::Each,
                    },
                })?;
                key += 1;
            }
            _ => {}
        }
        left = rest;
    }
    Ok(())
}

/// The edges of an object, or of its nodes.
pub(crate) fn edges_of(object: &Object) -> &[HasValue]
    ensures { result.now ≡ (node_of object.now).edges }
{
    match &object.shape {
        Shape::Region => object.edges.as_slice(),
        Shape::Segment { node, .. } => node.get().edges.as_slice(),
    }
}

/// The classes of the bytes of an object, or of those of its nodes.
pub(crate) fn plane_of(object: &Object) -> &Plane
    ensures { result.now ≡ (node_of object.now).plane }
{
    match &object.shape {
        Shape::Region => &object.plane,
        Shape::Segment { node, .. } => &node.get().plane,
    }
}

/// Says that the links may hold anything.
#[tactic(auto, using(crate::proofs::Bytes::filled_long))]
fn fill_links(fold: &Fold, plane: &mut Plane)
    requires next { fold.now.next + 8 ≤ length plane.old }
    requires prev { fold.now.twofold ≡ true → fold.now.prev + 8 ≤ length plane.old }
    ensures { plane.new ≡ linked_plane fold.now plane.old }
{
    plane.fill(fold.next, 8, 2);
    if fold.twofold {
        plane.fill(fold.prev, 8, 2);
    }
}

/// The classes of the bytes of each node.
#[tactic(auto, using(crate::proofs::Bytes::highest_long))]
pub(crate) fn joined_plane(
    alloc: Global,
    fold: &Fold,
    before: &Plane,
    behind: &Plane,
) -> Result<Plane, NoMemory>
    requires same { length before.now ≡ length behind.now }
    requires next { fold.now.next + 8 ≤ length before.now }
    requires prev { fold.now.twofold ≡ true → fold.now.prev + 8 ≤ length before.now }
    ensures { IfOk result (λ after. after ≡ joined_plane fold.now before.now behind.now) }
{
    match before.copied(alloc) {
        Err(error) => Err(error),
        Ok(plane) => {
            let mut plane = plane;
            plane.max_with(behind);
            fill_links(fold, &mut plane);
            Ok(plane)
        }
    }
}
