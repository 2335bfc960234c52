//! Own addresses of the nodes of a segment, where one of these becomes a region.
ghost use Rattle.std.specs.Prelude.{◌≡◌, ◌<◌, ◌+◌, ◌++◌, map, length, OnOk, IfOk};
ghost use Rattle.std.specs.List.{filter};
ghost use Rattle.graph.specs.Nodes.{node_of};
ghost use Rattle.graph.specs.Renaming.{values_from};
ghost use Rattle.materialise.specs.SplitFirst.{is_own, at_region};
ghost use Rattle.materialise.specs.Splitting.{alone_at, alone_edge, alone_node};

use cbase::{List, NoMemory};
use graph::{Edges, HasValue, KeyedValue, Node, Object, Shape, Target, Value};
use planes::Plane;
use std::alloc::Global;

/// Whether a value is the own address of each node of the segment with a key.
fn is_own(key: u32, value: Value) -> bool
    ensures { result ≡ is_own key value }
{
    match value {
        Value::Address { object, target, .. } => {
            if object == key {
                match target {
                    Target::Each => true,
                    _ => false,
                }
            } else {
                false
            }
        }
        _ => false,
    }
}

/// Puts the values that are own addresses of the nodes of the segment with a key behind others.
pub(crate) fn push_own(
    key: u32,
    values: &[KeyedValue],
    own: &mut List<KeyedValue>,
) -> Result<(), NoMemory>
    ensures { OnOk result (own.new ≡ own.old ++ filter (λ entry. is_own key entry.value) values.now) }
{
    let mut left = values;
    while let [first, rest @ ..] = left {
        if is_own(key, first.value) {
            own.push(*first)?;
        }
        left = rest;
    }
    Ok(())
}

/// The key of what a region holds in place of the value with a key: for an own address one of the values more, which stand from a key on.
#[tactic(auto, using(crate::proofs::SplitSteps::alone_here, crate::proofs::SplitSteps::alone_more))]
fn alone_key(own: &[KeyedValue], from: u32, at: u32) -> u32
    requires few { from + length own.now < 4294967296 }
    ensures { result ≡ alone_at own.now from at }
{
    let mut place = from;
    let mut left = own;
    while let [first, rest @ ..] = left {
        if first.key == at {
            return place;
        }
        place += 1;
        left = rest;
    }
    at
}

/// Puts the edges of a node, as it holds them where it becomes a region, behind others.
fn push_alone(
    own: &[KeyedValue],
    from: u32,
    edges: &[HasValue],
    kept: &mut List<HasValue>,
) -> Result<(), NoMemory>
    requires few { from + length own.now < 4294967296 }
    ensures { OnOk result (kept.new ≡ kept.old ++ map (alone_edge own.now from) edges.now) }
{
    let mut left = edges;
    while let [first, rest @ ..] = left {
        kept.push(HasValue {
            at: first.at,
            size: first.size,
            value: alone_key(own, from, first.value),
        })?;
        left = rest;
    }
    Ok(())
}

/// The edges of a node, as it holds them where it becomes a region.
fn alone_edges(
    alloc: Global,
    own: &[KeyedValue],
    from: u32,
    edges: &[HasValue],
) -> Result<Edges, NoMemory>
    requires few { from + length own.now < 4294967296 }
    ensures { IfOk result (λ kept. kept ≡ map (alone_edge own.now from) edges.now) }
{
    let mut kept = List::new(alloc);
    push_alone(own, from, edges, &mut kept)?;
    Edges::of(alloc, kept.as_slice())
}

/// What is said of bytes of a node, where it becomes a region.
fn alone(
    alloc: Global,
    own: &[KeyedValue],
    from: u32,
    edges: &[HasValue],
    plane: &Plane,
) -> Result<Node, NoMemory>
    requires few { from + length own.now < 4294967296 }
    ensures { IfOk result (λ kept. kept ≡ alone_node own.now from (record { edges = edges.now; plane = plane.now })) }
{
    match plane.copied(alloc) {
        Err(error) => Err(error),
        Ok(plane) => match alone_edges(alloc, own, from, edges) {
            Ok(edges) => Ok(Node { edges, plane }),
            Err(error) => {
                drop(plane);
                Err(error)
            }
        },
    }
}

/// What is said of the nodes of an object, where one of these becomes a region.
pub(crate) fn bare_node(
    alloc: Global,
    own: &[KeyedValue],
    from: u32,
    object: &Object,
) -> Result<Node, NoMemory>
    requires few { from + length own.now < 4294967296 }
    ensures { IfOk result (λ kept. kept ≡ alone_node own.now from (node_of object.now)) }
{
    match &object.shape {
        Shape::Region => alone(alloc, own, from, object.edges.as_slice(), &object.plane),
        Shape::Segment { node, .. } => {
            let node = node.get();
            alone(alloc, own, from, node.edges.as_slice(), &node.plane)
        }
    }
}

/// The address at the same offset of a region.
fn at_region(region: u32, value: Value) -> Value
    ensures { result ≡ at_region region value }
{
    match value {
        Value::Address { offset, .. } => Value::Address {
            object: region,
            offset,
            target: Target::Region,
        },
        _ => value,
    }
}

/// Puts addresses of a region at the same offsets, with keys from one on, behind values.
pub(crate) fn push_turned(
    region: u32,
    from: u32,
    own: &[KeyedValue],
    values: &mut List<KeyedValue>,
) -> Result<(), NoMemory>
    requires few { from + length own.now < 4294967296 }
    ensures { OnOk result (values.new ≡ values.old ++ values_from from (map (λ entry. at_region region entry.value) own.now)) }
{
    let mut key = from;
    let mut left = own;
    while let [first, rest @ ..] = left {
        values.push(KeyedValue {
            key,
            value: at_region(region, first.value),
        })?;
        key += 1;
        left = rest;
    }
    Ok(())
}
