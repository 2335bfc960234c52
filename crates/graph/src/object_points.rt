//! What is asked of each object of a graph, and of its edges.
ghost use Rattle.std.specs.Prelude.{◌≡◌, take, drop, nat_eq};
ghost use Rattle.std.specs.List.{list_all};
ghost use Rattle.graph.specs.WellFormed.{HasAscendingKeys, has_class_a_byte, is_at_home, is_segment_storage, may_stand_in, says_nothing};
ghost use Rattle.graph.specs.Points as points;

use crate::disjoint::are_in_order;
use crate::edges::HasValue;
use crate::link_points::links_fit;
use crate::look_up::value_with;
use crate::object::{Object, Shape};
use crate::parts::Parts;
use crate::sizes::{class_of, is_zero, size_of};
use crate::value::{Target, Value};
use bytes_core::BlockKind;
use planes::Plane;

/// Whether `count` bytes from `from` on, as far as there are so many, have this class.
#[tactic(auto, using(crate::proofs::Ranges::range_end))]
pub(crate) fn has_class(plane: &Plane, from: u32, count: u8, class: u8) -> bool
    ensures { result ≡ list_all (nat_eq class) (take count (drop from plane.now)) }
{
    let mut at = from;
    let mut left = count;
    while left > 0 {
        if at >= plane.len() {
            return true;
        }
        if class != plane.class_at(at) {
            return false;
        }
        at += 1;
        left -= 1;
    }
    true
}

/// Whether an address may stand in what is said of the nodes of the segment with this key.
fn is_at_home(object: u32, target: Target, home: u32) -> bool
    ensures { result ≡ is_at_home object target home }
{
    match target {
        Target::Region => true,
        Target::First => true,
        Target::Last => true,
        Target::Each => object == home,
    }
}

/// Whether a value may stand in the object with this key.
fn may_stand_in(home: u32, value: Value) -> bool
    ensures { result ≡ may_stand_in home value }
{
    match value {
        Value::Const { number: _, size: _ } => true,
        Value::Number { size: _ } => true,
        Value::Any => true,
        Value::Address {
            object,
            offset: _,
            target,
        } => is_at_home(object, target, home),
    }
}

/// Whether an edge of an object with this key and size is as it should be.
fn edge_fits(parts: &Parts, key: u32, size: u32, plane: &Plane, edge: &HasValue) -> bool
    requires { HasAscendingKeys parts.now }
    ensures { result ≡ points.edge_fits parts.now key size plane.now edge.now }
{
    if edge.at as u64 + edge.size as u64 > size as u64 {
        return false;
    }
    match value_with(parts, edge.value) {
        None => false,
        Some(value) => {
            if size_of(value) != edge.size {
                return false;
            }
            if !has_class(plane, edge.at, edge.size, class_of(value)) {
                return false;
            }
            if is_zero(value) {
                return false;
            }
            may_stand_in(key, value)
        }
    }
}

/// Whether each of these edges of an object is as it should be.
fn all_fit(parts: &Parts, key: u32, size: u32, plane: &Plane, edges: &[HasValue]) -> bool
    requires { HasAscendingKeys parts.now }
    ensures { result ≡ list_all (points.edge_fits parts.now key size plane.now) edges.now }
{
    let mut left = edges;
    while let [first, rest @ ..] = left {
        if !edge_fits(parts, key, size, plane, first) {
            return false;
        }
        left = rest;
    }
    true
}

/// Whether these edges of an object are as they should be.
fn edges_fit(parts: &Parts, key: u32, size: u32, plane: &Plane, edges: &[HasValue]) -> bool
    requires { HasAscendingKeys parts.now }
    ensures { result ≡ points.edges_fit parts.now key size plane.now edges.now }
{
    if !are_in_order(edges) {
        return false;
    }
    all_fit(parts, key, size, plane, edges)
}

/// Whether there is no edge and no class.
fn says_nothing(edges: &[HasValue], plane: &Plane) -> bool
    ensures { result ≡ says_nothing edges.now plane.now }
{
    match edges {
        [] => plane.len() == 0,
        [_, ..] => false,
    }
}

/// Whether an object has one class a byte, if it lives.
fn has_class_a_byte(object: &Object) -> bool
    ensures { result ≡ has_class_a_byte object.now }
{
    if !object.live {
        return true;
    }
    match &object.shape {
        Shape::Region => object.plane.len() == object.size,
        Shape::Segment { node, .. } => node.get().plane.len() == object.size,
    }
}

/// Whether a segment lives and is allocated, and nothing is said of its own bytes.
fn is_segment_storage(object: &Object) -> bool
    ensures { result ≡ is_segment_storage object.now }
{
    if !object.live {
        return false;
    }
    match object.kind {
        BlockKind::Static => false,
        BlockKind::Local => false,
        BlockKind::Heap => says_nothing(object.edges.as_slice(), &object.plane),
    }
}

/// Whether an object lies where it may, and says of its own bytes what it may.
fn is_stored(object: &Object) -> bool
    ensures { result ≡ points.is_stored object.now }
{
    match &object.shape {
        Shape::Region => {
            if object.live {
                return true;
            }
            says_nothing(object.edges.as_slice(), &object.plane)
        }
        Shape::Segment { .. } => is_segment_storage(object),
    }
}

/// Whether the edges and links of an object are as they should be.
fn contents_fit(parts: &Parts, key: u32, object: &Object) -> bool
    requires { HasAscendingKeys parts.now }
    ensures { result ≡ points.contents_fit parts.now key object.now }
{
    match &object.shape {
        Shape::Region => edges_fit(
            parts,
            key,
            object.size,
            &object.plane,
            object.edges.as_slice(),
        ),
        Shape::Segment { node, .. } => {
            let node = node.get();
            if !edges_fit(parts, key, object.size, &node.plane, node.edges.as_slice()) {
                return false;
            }
            links_fit(
                parts,
                object.size,
                &node.plane,
                node.edges.as_slice(),
                &object.shape,
            )
        }
    }
}

/// Whether an object is as it should be.
fn object_fits(parts: &Parts, key: u32, object: &Object) -> bool
    requires { HasAscendingKeys parts.now }
    ensures { result ≡ points.object_fits parts.now key object.now }
{
    if object.size > 65536 {
        return false;
    }
    if !has_class_a_byte(object) {
        return false;
    }
    if !is_stored(object) {
        return false;
    }
    contents_fit(parts, key, object)
}

/// Whether each object is as it should be.
pub(crate) fn objects_fit(parts: &Parts) -> bool
    requires { HasAscendingKeys parts.now }
    ensures { result ≡ points.objects_fit parts.now }
{
    let mut left = parts.objects.as_slice();
    while let [first, rest @ ..] = left {
        if !object_fits(parts, first.key, &first.object) {
            return false;
        }
        left = rest;
    }
    true
}
