//! What is asked of the links of a segment.
ghost use Rattle.std.specs.Prelude.{◌≡◌, false};
ghost use Rattle.graph.specs.WellFormed.{HasAscendingKeys, is_null, is_outward, means_one, passes_at};
ghost use Rattle.graph.specs.Points as points;

use crate::disjoint::{is_apart, lies_before};
use crate::edges::HasValue;
use crate::look_up::value_with;
use crate::object::Shape;
use crate::object_points::has_class;
use crate::parts::Parts;
use crate::value::{Target, Value};
use planes::Plane;

/// Whether a target means one block.
pub(crate) fn means_one(target: Target) -> bool
    ensures { result ≡ means_one target }
{
    match target {
        Target::Region => true,
        Target::First => true,
        Target::Last => true,
        Target::Each => false,
    }
}

/// Whether a value may lie behind or before a segment.
fn is_outward(value: Value) -> bool
    ensures { result ≡ is_outward value }
{
    match value {
        Value::Const { number: _, size } => size == 8,
        Value::Number { size: _ } => false,
        Value::Any => false,
        Value::Address {
            object: _,
            offset: _,
            target,
        } => means_one(target),
    }
}

/// Whether it is the constant 0 of eight bytes.
fn is_null(value: Value) -> bool
    ensures { result ≡ is_null value }
{
    match value {
        Value::Const { number, size } => {
            if number != 0 {
                return false;
            }
            size == 8
        }
        Value::Number { size: _ } => false,
        Value::Any => false,
        Value::Address {
            object: _,
            offset: _,
            target: _,
        } => false,
    }
}

/// Whether the value with this key may lie behind or before a segment.
fn leads_on(parts: &Parts, key: u32) -> bool
    requires { HasAscendingKeys parts.now }
    ensures { result ≡ passes_at parts.now is_outward key }
{
    match value_with(parts, key) {
        None => false,
        Some(value) => is_outward(value),
    }
}

/// Whether the value with this key is the constant 0 of eight bytes.
fn holds_null(parts: &Parts, key: u32) -> bool
    requires { HasAscendingKeys parts.now }
    ensures { result ≡ passes_at parts.now is_null key }
{
    match value_with(parts, key) {
        None => false,
        Some(value) => is_null(value),
    }
}

/// Whether a link of a node is as it should be.
fn link_fits(parts: &Parts, size: u32, plane: &Plane, edges: &[HasValue], link: &HasValue) -> bool
    requires { HasAscendingKeys parts.now }
    ensures { result ≡ points.link_fits parts.now size plane.now edges.now link.now }
{
    if link.at as u64 + link.size as u64 > size as u64 {
        return false;
    }
    if !is_apart(link, edges) {
        return false;
    }
    if !has_class(plane, link.at, link.size, 2) {
        return false;
    }
    leads_on(parts, link.value)
}

/// Whether the links of an object are as they should be.
pub(crate) fn links_fit(
    parts: &Parts,
    size: u32,
    plane: &Plane,
    edges: &[HasValue],
    shape: &Shape,
) -> bool
    requires { HasAscendingKeys parts.now }
    ensures { result ≡ points.links_fit parts.now size plane.now edges.now shape.now }
{
    match shape.links() {
        None => true,
        Some(links) => {
            let next = HasValue {
                at: links.next,
                size: 8,
                value: links.next_value,
            };
            if links.twofold {
                let prev = HasValue {
                    at: links.prev,
                    size: 8,
                    value: links.prev_value,
                };
                if !lies_before(&next, &prev) {
                    return false;
                }
                if !link_fits(parts, size, plane, edges, &next) {
                    return false;
                }
                if !link_fits(parts, size, plane, edges, &prev) {
                    return false;
                }
                links.back < size
            } else {
                if !link_fits(parts, size, plane, edges, &next) {
                    return false;
                }
                if links.prev != 0 {
                    return false;
                }
                if links.back != 0 {
                    return false;
                }
                holds_null(parts, links.prev_value)
            }
        }
    }
}
