//! What an object holds at the places of links.
ghost use Rattle.std.specs.Prelude.{◌≡◌, ◌≤◌, ◌+◌, length, take, drop, nat_eq};
ghost use Rattle.std.specs.List.{list_all};
ghost use Rattle.bytes_core.specs.Release.{is_heap};
ghost use Rattle.fold.specs.Linked.{key_in, are_zeros, link_in, onward, backward, leads_on, leads_back, are_alike, has_places, is_list};

use crate::fold::Fold;
use bytes_core::BlockKind;
use graph::{HasValue, Object, Shape, Target, Value};
use planes::Plane;

/// The key of the value that the range of an edge holds.
pub(crate) fn key_in(at: u32, size: u8, edges: &[HasValue]) -> Option<u32>
    ensures { result ≡ key_in at size edges.now }
{
    let mut left = edges;
    while let [first, rest @ ..] = left {
        if first.at == at && first.size == size {
            return Some(first.value);
        }
        left = rest;
    }
    None
}

/// Whether eight bytes are 0.
fn are_zero(at: u32, plane: &Plane) -> bool
    requires { at + 8 ≤ length plane.now }
    ensures { result ≡ list_all (nat_eq 0) (take 8 (drop at plane.now)) }
{
    plane.all_are(at, 8, 0)
}

/// Whether eight bytes are there, and are 0.
fn are_zeros(at: u32, plane: &Plane) -> bool
    ensures { result ≡ are_zeros at plane.now }
{
    if plane.len() < 8 {
        return false;
    }
    if at > plane.len() - 8 {
        return false;
    }
    are_zero(at, plane)
}

/// The key of what a region holds as a link.
fn link_in(null: u32, at: u32, edges: &[HasValue], plane: &Plane) -> Option<u32>
    ensures { result ≡ link_in null at edges.now plane.now }
{
    match key_in(at, 8, edges) {
        Some(key) => Some(key),
        None => {
            if are_zeros(at, plane) {
                Some(null)
            } else {
                None
            }
        }
    }
}

/// The key of what lies behind an object.
pub(crate) fn onward(null: u32, fold: &Fold, object: &Object) -> Option<u32>
    ensures { result ≡ onward null fold.now object.now }
{
    match &object.shape {
        Shape::Region => link_in(null, fold.next, object.edges.as_slice(), &object.plane),
        Shape::Segment { next_value, .. } => Some(*next_value),
    }
}

/// The key of what lies before it.
pub(crate) fn backward(null: u32, fold: &Fold, object: &Object) -> Option<u32>
    ensures { result ≡ backward null fold.now object.now }
{
    if !fold.twofold {
        return Some(null);
    }
    match &object.shape {
        Shape::Region => link_in(null, fold.prev, object.edges.as_slice(), &object.plane),
        Shape::Segment { prev_value, .. } => Some(*prev_value),
    }
}

/// Whether a value is the address of the first node of an object, at a place.
pub(crate) fn leads_on(key: u32, place: u32, value: Value) -> bool
    ensures { result ≡ leads_on key place value }
{
    match value {
        Value::Address {
            object,
            offset,
            target,
        } => {
            if object == key && offset == place as i64 {
                match target {
                    Target::Region => true,
                    Target::First => true,
                    _ => false,
                }
            } else {
                false
            }
        }
        _ => false,
    }
}

/// Whether a value is the address of the last node of an object, at a place.
pub(crate) fn leads_back(key: u32, place: u32, value: Value) -> bool
    ensures { result ≡ leads_back key place value }
{
    match value {
        Value::Address {
            object,
            offset,
            target,
        } => {
            if object == key && offset == place as i64 {
                match target {
                    Target::Region => true,
                    Target::Last => true,
                    _ => false,
                }
            } else {
                false
            }
        }
        _ => false,
    }
}

/// Whether both are true, or both false.
fn are_alike(one: bool, other: bool) -> bool
    ensures { result ≡ are_alike one other }
{
    if one { other } else { !other }
}

/// Whether a segment has the direction and the places of a fold.
fn has_places(fold: &Fold, shape: &Shape) -> bool
    ensures { result ≡ has_places fold.now shape.now }
{
    match shape.links() {
        None => true,
        Some(links) => {
            are_alike(links.twofold, fold.twofold)
                && links.head == fold.head
                && links.next == fold.next
                && links.prev == fold.prev
                && links.back == fold.back
        }
    }
}

/// Whether an object is allocated.
fn is_heap(object: &Object) -> bool
    ensures { result ≡ is_heap object.now.kind }
{
    match object.kind {
        BlockKind::Heap => true,
        _ => false,
    }
}

/// Whether an object is live and allocated, and has the places of a fold where it is a segment.
pub(crate) fn is_list(fold: &Fold, object: &Object) -> bool
    ensures { result ≡ is_list fold.now object.now }
{
    if object.live {
        if is_heap(object) {
            return has_places(fold, &object.shape);
        }
    }
    false
}
