//! Which objects beside two neighbours hold an address of one of them.
ghost use Rattle.std.specs.Prelude.{◌≡◌, false};
ghost use Rattle.std.specs.List.{list_any};
ghost use Rattle.std.specs.Option.{option_map_or};
ghost use Rattle.graph.specs.Maps.{object_at};
ghost use Rattle.graph.specs.Large.{leads_to};
ghost use Rattle.graph.specs.Nodes.{is_region};
ghost use Rattle.graph.specs.WellFormed.{passes_at};
ghost use Rattle.fold.specs.Holders.{leads_at, is_home_of, is_near, is_third, is_either, holds_third, is_held, is_one_free};

use crate::fold::Fold;
use crate::links::{backward, onward};
use graph::{Graph, HasValue, Held, Object, Shape, Value};

/// Whether a value is an address of the object with a key.
fn leads_to(key: u32, value: Value) -> bool
    ensures { result ≡ leads_to key value }
{
    match value {
        Value::Address { object, .. } => object == key,
        _ => false,
    }
}

/// Whether an address has this offset.
fn leads_at(place: u32, value: Value) -> bool
    ensures { result ≡ leads_at place value }
{
    match value {
        Value::Address { offset, .. } => offset == place as i64,
        _ => false,
    }
}

/// Whether an address is of the object at a key.
fn is_home_of(home: u32, value: Value) -> bool
    ensures { result ≡ is_home_of home value }
{
    match value {
        Value::Address { object, .. } => object == home,
        _ => false,
    }
}

/// Whether a link leads to the object at a key.
fn is_near(graph: &Graph, link: Option<u32>, home: u32) -> bool
    ensures { result ≡ is_near graph.now link home }
{
    match link {
        None => false,
        Some(key) => match graph.value(key) {
            None => false,
            Some(value) => is_home_of(home, *value),
        },
    }
}

/// Whether a value is an address of an object, other than the link of a list.
fn is_third(key: u32, near: bool, place: u32, value: Value) -> bool
    ensures { result ≡ is_third key near place value }
{
    if !leads_to(key, value) {
        return false;
    }
    !(near && leads_at(place, value))
}

/// Whether the value with a key is an address of an object.
fn names(graph: &Graph, key: u32, value: u32) -> bool
    ensures { result ≡ passes_at graph.now (leads_to key) value }
{
    match graph.value(value) {
        None => false,
        Some(value) => leads_to(key, *value),
    }
}

/// Whether the value with a key is an address of an object, other than the link of a list.
fn names_third(graph: &Graph, key: u32, near: bool, place: u32, value: u32) -> bool
    ensures { result ≡ passes_at graph.now (is_third key near place) value }
{
    match graph.value(value) {
        None => false,
        Some(value) => is_third(key, near, place, *value),
    }
}

/// Whether one of these edges holds such an address.
fn any_third(graph: &Graph, key: u32, near: bool, place: u32, edges: &[HasValue]) -> bool
    ensures { result ≡ list_any (λ edge. passes_at graph.now (is_third key near place) edge.value) edges.now }
{
    let mut left = edges;
    while let [first, rest @ ..] = left {
        if names_third(graph, key, near, place, first.value) {
            return true;
        }
        left = rest;
    }
    false
}

/// Whether a register holds an address of an object.
fn registers_name(graph: &Graph, key: u32, registers: &[Held]) -> bool
    ensures { result ≡ list_any (λ held. passes_at graph.now (leads_to key) held.value) registers.now }
{
    let mut left = registers;
    while let [first, rest @ ..] = left {
        if names(graph, key, first.value) {
            return true;
        }
        left = rest;
    }
    false
}

/// Whether a port holds an address of an object.
fn ports_name(graph: &Graph, key: u32, ports: &[u32]) -> bool
    ensures { result ≡ list_any (passes_at graph.now (leads_to key)) ports.now }
{
    let mut left = ports;
    while let [first, rest @ ..] = left {
        if names(graph, key, *first) {
            return true;
        }
        left = rest;
    }
    false
}

/// Whether a key is that of one of the two neighbours.
fn is_either(fold: &Fold, key: u32) -> bool
    ensures { result ≡ is_either fold.now key }
{
    if key == fold.first {
        return true;
    }
    key == fold.second
}

/// Whether an object that is none of the two holds such an address.
fn holds_third(
    graph: &Graph,
    fold: &Fold,
    key: u32,
    link: Option<u32>,
    place: u32,
    home: u32,
    object: &Object,
) -> bool
    ensures { result ≡ holds_third graph.now fold.now key link place home object.now }
{
    if is_either(fold, home) {
        return false;
    }
    let near = is_near(graph, link, home);
    match &object.shape {
        Shape::Region => any_third(graph, key, near, place, object.edges.as_slice()),
        Shape::Segment { node, .. } => {
            any_third(graph, key, near, place, node.get().edges.as_slice())
        }
    }
}

/// Whether the object at a key does.
fn stands_third(
    graph: &Graph,
    fold: &Fold,
    key: u32,
    link: Option<u32>,
    place: u32,
    home: u32,
) -> bool
    ensures { result ≡ option_map_or (holds_third graph.now fold.now key link place home) (object_at graph.now.objects home) false }
{
    match graph.object(home) {
        None => false,
        Some(object) => holds_third(graph, fold, key, link, place, home, object),
    }
}

/// Whether an object does.
#[tactic(auto, using(crate::proofs::Entries::any_next, crate::proofs::Entries::any_done))]
fn objects_hold(graph: &Graph, fold: &Fold, key: u32, link: Option<u32>, place: u32) -> bool
    ensures { result ≡ list_any (λ entry. holds_third graph.now fold.now key link place entry.key entry.object) graph.now.objects }
{
    for home in 0..graph.object_count() {
        if stands_third(graph, fold, key, link, place, home) {
            return true;
        }
    }
    false
}

/// Whether a register, a port or an object that is none of the two holds an address of an object.
fn is_held(graph: &Graph, fold: &Fold, key: u32, link: Option<u32>, place: u32) -> bool
    ensures { result ≡ is_held graph.now fold.now key link place }
{
    if registers_name(graph, key, graph.registers()) {
        return true;
    }
    if ports_name(graph, key, graph.ports()) {
        return true;
    }
    objects_hold(graph, fold, key, link, place)
}

fn is_region(object: &Object) -> bool
    ensures { result ≡ is_region object.now.shape }
{
    match &object.shape {
        Shape::Region => true,
        _ => false,
    }
}

/// Whether one of two regions at least is free of other holders, where nodes are linked both ways.
pub(crate) fn is_one_free(graph: &Graph, fold: &Fold, one: &Object, other: &Object) -> bool
    ensures { result ≡ is_one_free graph.now fold.now one.now other.now }
{
    if !fold.twofold {
        return true;
    }
    if !is_region(one) {
        return true;
    }
    if !is_region(other) {
        return true;
    }
    let null = graph.value_count();
    if !is_held(
        graph,
        fold,
        fold.first,
        backward(null, fold, one),
        fold.head,
    ) {
        return true;
    }
    !is_held(
        graph,
        fold,
        fold.second,
        onward(null, fold, other),
        fold.back,
    )
}
