//! The values of the edges of two objects that are paired, or of their nodes.
ghost use Rattle.std.specs.Prelude.{◌≡◌, true, drop, Some, IfOk};
ghost use Rattle.graph.specs.Maps.{object_at};
ghost use Rattle.graph.specs.Meaning.{maps_of};
ghost use Rattle.graph.specs.Nodes.{node_of};
ghost use Rattle.cover.specs.Covers.{content, value_in, are_zeros, held_in, Objects, IsReached};
ghost use Rattle.cover.specs.Found.{IsSound, Links};

use crate::content::Content;
use crate::found::{Found, pair_value};
use crate::node::{edges_of, plane_of};
use cbase::NoMemory;
use graph::{Graph, HasValue, Object, Value};
use planes::Plane;

/// What the value with a key is.
pub(crate) fn content_of(graph: &Graph, key: u32) -> Content
    ensures { result ≡ content (maps_of graph.now) key }
{
    match graph.value(key) {
        Some(Value::Const { number, size }) => Content::Fixed {
            number: *number,
            size: *size,
        },
        Some(
            Value::Address {
                object,
                offset,
                target,
            },
        ) => Content::Leads {
            object: *object,
            offset: *offset,
            target: *target,
        },
        _ => Content::Kept { key },
    }
}

/// The value of the edge with this range, if there is one.
pub(crate) fn value_in(edges: &[HasValue], at: u32, size: u8) -> Option<u32>
    ensures { result ≡ value_in edges.now at size }
{
    let mut left = edges;
    while let [first, rest @ ..] = left {
        if first.at == at && first.size == size {
            return Some(first.value);
        }
        left = rest;
    }
    None
}

/// Whether so many bytes from a place on are zeros.
#[tactic(auto, using(crate::proofs::Zeros::zeros_past, crate::proofs::Zeros::zeros_few, crate::proofs::Zeros::zeros_all))]
fn are_zeros(plane: &Plane, at: u32, size: u8) -> bool
    ensures { result ≡ are_zeros size (drop at plane.now) }
{
    if at > plane.len() {
        return size == 0;
    }
    if size as u32 > plane.len() - at {
        return false;
    }
    plane.all_at_most(at, size as u32, 0)
}

/// What a range of an object's block, or of its nodes, holds: the value of its edge, or zeros.
pub(crate) fn held_in(graph: &Graph, object: &Object, at: u32, size: u8) -> Option<Content>
    ensures { result ≡ held_in (maps_of graph.now) (node_of object.now) at size }
{
    match value_in(edges_of(object), at, size) {
        Some(key) => Some(content_of(graph, key)),
        None => {
            if are_zeros(plane_of(object), at, size) {
                Some(Content::Fixed { number: 0, size })
            } else {
                None
            }
        }
    }
}

/// Pairs the values of the edges of two objects that are paired. False only where no pairing covers.
#[tactic(auto, using(crate::proofs::Links::links_start, crate::proofs::Links::links_end, crate::proofs::Links::edge_reached))]
pub(crate) fn pair_edges(
    found: &mut Found,
    wide: &Graph,
    narrow: &Graph,
    one: u32,
    other: u32,
    object: &Object,
    with: &Object,
) -> Result<bool, NoMemory>
    requires sound { IsSound (maps_of wide.now) (maps_of narrow.now) found.old }
    requires reached { IsReached (maps_of wide.now) (maps_of narrow.now) (Objects one other) }
    requires stands { object_at wide.now.objects one ≡ Some object.now }
    requires with_stands { object_at narrow.now.objects other ≡ Some with.now }
    requires live { object.now.live ≡ true }
    ensures { IfOk result (λ fine. Links (maps_of wide.now) (maps_of narrow.now) found.old found.new (node_of with.now) (node_of object.now).edges fine) }
{
    let edges = edges_of(object);
    let mut at = 0;
    while at < edges.len() {
        let edge = edges[at];
        let held = match held_in(narrow, with, edge.at, edge.size) {
            Some(held) => held,
            None => return Ok(false),
        };
        if !pair_value(found, wide, narrow, edge.value, held)? {
            return Ok(false);
        }
        at += 1;
    }
    Ok(true)
}
