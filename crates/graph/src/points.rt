//! Whether parts make a graph: all points but the limits, those of values, variables, registers, ports and unequal
//! pairs among them.
ghost use Rattle.std.specs.Prelude.{◌≡◌, ◌↔◌, false, IsTrue};
ghost use Rattle.std.specs.Option.{option_map_or};
ghost use Rattle.graph.specs.Maps.{object_at};
ghost use Rattle.graph.specs.WellFormed.{HasAscendingKeys, IsWellFormed, passes_at, may_be_held, target_fits, leads_to_object, is_storage, variables_have_storage, registers_hold_values, ports_are_values, is_unequal_pair, pairs_may_be_unequal};
ghost use Rattle.graph.specs.Points as points;

use crate::ascending::{registers_ascend, variables_ascend};
use crate::different::are_different;
use crate::distinct::storage_is_distinct;
use crate::ends::comes_to_an_end;
use crate::link_points::means_one;
use crate::look_up::{object_with, value_with};
use crate::object::{Object, Shape};
use crate::object_points::objects_fit;
use crate::parts::{Pair, Parts};
use crate::sizes::{is_sized, may_be_unequal};
use crate::value::{Target, Value};
use bytes_core::BlockKind;
use std::alloc::Global;

/// Whether parts make a graph, the limits aside.
#[tactic(auto, using(crate::proofs::Ranges::all_points))]
pub(crate) fn is_well_formed(alloc: Global, parts: &Parts) -> bool
    requires { HasAscendingKeys parts.now }
    ensures { IsTrue result ↔ IsWellFormed parts.now }
{
    if !passes_all(alloc, parts) {
        return false;
    }
    comes_to_an_end(alloc, parts)
}

/// Whether parts pass each test.
fn passes_all(alloc: Global, parts: &Parts) -> bool
    requires { HasAscendingKeys parts.now }
    ensures { result ≡ points.passes_all parts.now }
{
    if !objects_fit(parts) {
        return false;
    }
    if !values_fit(parts) {
        return false;
    }
    if !variables_have_storage(parts) {
        return false;
    }
    if !storage_is_distinct(alloc, parts.variables.as_slice()) {
        return false;
    }
    if !variables_ascend(parts.variables.as_slice()) {
        return false;
    }
    if !registers_hold_values(parts) {
        return false;
    }
    if !registers_ascend(parts.registers.as_slice()) {
        return false;
    }
    if !ports_are_values(parts) {
        return false;
    }
    if !pairs_may_be_unequal(parts) {
        return false;
    }
    are_different(alloc, parts.unequal.as_slice())
}

/// Whether an object of this shape has a block that an address with this target leads to.
fn target_fits(target: Target, shape: &Shape) -> bool
    ensures { result ≡ target_fits target shape.now }
{
    match shape {
        Shape::Region => match target {
            Target::Region => true,
            Target::First => false,
            Target::Last => false,
            Target::Each => false,
        },
        Shape::Segment { twofold, .. } => match target {
            Target::Region => false,
            Target::First => true,
            Target::Last => *twofold,
            Target::Each => true,
        },
    }
}

/// Whether an address leads to an object that is there.
fn leads_to_object(parts: &Parts, value: Value) -> bool
    requires { HasAscendingKeys parts.now }
    ensures { result ≡ leads_to_object parts.now value }
{
    match value {
        Value::Const { number: _, size: _ } => true,
        Value::Number { size: _ } => true,
        Value::Any => true,
        Value::Address {
            object,
            offset: _,
            target,
        } => match object_with(parts, object) {
            None => false,
            Some(found) => target_fits(target, &found.shape),
        },
    }
}

/// Whether a register or a port may hold a value.
fn may_be_held(value: Value) -> bool
    ensures { result ≡ may_be_held value }
{
    match value {
        Value::Const { number: _, size: _ } => true,
        Value::Number { size: _ } => true,
        Value::Any => true,
        Value::Address {
            object: _,
            offset: _,
            target,
        } => means_one(target),
    }
}

/// Whether a value with this key is there, and a register or a port may hold it.
fn holds(parts: &Parts, key: u32) -> bool
    requires { HasAscendingKeys parts.now }
    ensures { result ≡ passes_at parts.now may_be_held key }
{
    match value_with(parts, key) {
        None => false,
        Some(value) => may_be_held(value),
    }
}

/// Whether each value is as it should be.
fn values_fit(parts: &Parts) -> bool
    requires { HasAscendingKeys parts.now }
    ensures { result ≡ points.values_fit parts.now }
{
    let mut left = parts.values.as_slice();
    while let [first, rest @ ..] = left {
        if !leads_to_object(parts, first.value) {
            return false;
        }
        if !is_sized(first.value) {
            return false;
        }
        left = rest;
    }
    true
}

/// Whether the object with this key may be a variable's storage.
fn has_storage(parts: &Parts, key: u32) -> bool
    requires { HasAscendingKeys parts.now }
    ensures { result ≡ option_map_or is_storage (object_at parts.now.objects key) false }
{
    match object_with(parts, key) {
        None => false,
        Some(object) => is_storage(object),
    }
}

/// Whether an object lives and is not allocated.
fn is_storage(object: &Object) -> bool
    ensures { result ≡ is_storage object.now }
{
    if !object.live {
        return false;
    }
    match object.kind {
        BlockKind::Static => true,
        BlockKind::Local => true,
        BlockKind::Heap => false,
    }
}

/// Whether each variable has storage.
fn variables_have_storage(parts: &Parts) -> bool
    requires { HasAscendingKeys parts.now }
    ensures { result ≡ variables_have_storage parts.now }
{
    let mut left = parts.variables.as_slice();
    while let [first, rest @ ..] = left {
        if !has_storage(parts, first.object) {
            return false;
        }
        left = rest;
    }
    true
}

/// Whether each register holds a value that is there.
fn registers_hold_values(parts: &Parts) -> bool
    requires { HasAscendingKeys parts.now }
    ensures { result ≡ registers_hold_values parts.now }
{
    let mut left = parts.registers.as_slice();
    while let [first, rest @ ..] = left {
        if !holds(parts, first.value) {
            return false;
        }
        left = rest;
    }
    true
}

/// Whether each port is a value that is there.
fn ports_are_values(parts: &Parts) -> bool
    requires { HasAscendingKeys parts.now }
    ensures { result ≡ ports_are_values parts.now }
{
    let mut left = parts.ports.as_slice();
    while let [first, rest @ ..] = left {
        if !holds(parts, *first) {
            return false;
        }
        left = rest;
    }
    true
}

/// Whether a pair is of two different values that may be unequal.
fn is_unequal_pair(parts: &Parts, pair: &Pair) -> bool
    requires { HasAscendingKeys parts.now }
    ensures { result ≡ is_unequal_pair parts.now pair.now }
{
    if pair.left == pair.right {
        return false;
    }
    match value_with(parts, pair.left) {
        None => false,
        Some(one) => match value_with(parts, pair.right) {
            None => false,
            Some(other) => may_be_unequal(one, other),
        },
    }
}

/// Whether each pair is of two different values that may be unequal.
fn pairs_may_be_unequal(parts: &Parts) -> bool
    requires { HasAscendingKeys parts.now }
    ensures { result ≡ pairs_may_be_unequal parts.now }
{
    let mut left = parts.unequal.as_slice();
    while let [first, rest @ ..] = left {
        if !is_unequal_pair(parts, first) {
            return false;
        }
        left = rest;
    }
    true
}
