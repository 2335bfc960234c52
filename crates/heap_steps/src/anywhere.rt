//! Whether something of a graph may lead anywhere.
ghost use Rattle.std.specs.Prelude.{◌≡◌, ◌+◌, drop, length, true, IfOk};
ghost use Rattle.std.specs.List.{list_any, list_all};
ghost use Rattle.graph.specs.Nodes.{node_of};
ghost use Rattle.graph.specs.WellFormed.{lies_in, passes_at};
ghost use Rattle.heap_steps.specs.Unreached.{has_loose_byte, is_any, edges_hold_any, some_loose, objects_hold_any, may_lead_anywhere};

use cbase::NoMemory;
use graph::{Graph, HasValue, Held, Object, Shape, Value};
use planes::Plane;
use std::alloc::Global;

/// Whether a value is any word.
fn is_any(value: &Value) -> bool
    ensures { result ≡ is_any value.now }
{
    match value {
        Value::Const { number: _, size: _ } => false,
        Value::Number { size: _ } => false,
        Value::Any => true,
        Value::Address { .. } => false,
    }
}

/// Whether the value with a key is there, and is any word.
fn is_any_at(graph: &Graph, key: u32) -> bool
    ensures { result ≡ passes_at graph.now is_any key }
{
    match graph.value(key) {
        None => false,
        Some(value) => is_any(value),
    }
}

/// Whether an edge holds a value that is any word.
fn edges_hold_any(graph: &Graph, edges: &[HasValue]) -> bool
    ensures { result ≡ edges_hold_any graph.now edges.now }
{
    let mut left = edges;
    while let [first, rest @ ..] = left {
        if is_any_at(graph, first.value) {
            return true;
        }
        left = rest;
    }
    false
}

/// Whether a register does.
fn registers_hold_any(graph: &Graph, registers: &[Held]) -> bool
    ensures { result ≡ list_any (λ held. passes_at graph.now is_any held.value) registers.now }
{
    let mut left = registers;
    while let [first, rest @ ..] = left {
        if is_any_at(graph, first.value) {
            return true;
        }
        left = rest;
    }
    false
}

/// Whether a port does.
fn ports_hold_any(graph: &Graph, ports: &[u32]) -> bool
    ensures { result ≡ list_any (passes_at graph.now is_any) ports.now }
{
    let mut left = ports;
    while let [first, rest @ ..] = left {
        if is_any_at(graph, *first) {
            return true;
        }
        left = rest;
    }
    false
}

/// Takes the bytes of the edge at a place out of the classes: they are as if they were 0.
fn take_out(edges: &[HasValue], place: usize, taken: &mut Plane)
    requires inside { list_all (lies_in (length taken.old)) edges.now ≡ true }
    ensures same { has_loose_byte (drop (place + 1) edges.now) 0 taken.new ≡ has_loose_byte (drop place edges.now) 0 taken.old }
    ensures long { length taken.new ≡ length taken.old }
{
    match edges.get(place) {
        None => {}
        Some(edge) => taken.fill(edge.at, edge.size as u32, 0),
    }
}

/// Whether a byte that may be part of a pointer lies in none of these edges: the edges' bytes are taken out of a copy of the classes.
fn has_loose_byte(alloc: Global, edges: &[HasValue], plane: &Plane) -> Result<bool, NoMemory>
    requires inside { list_all (lies_in (length plane.now)) edges.now ≡ true }
    ensures { IfOk result (λ loose. loose ≡ has_loose_byte edges.now 0 plane.now) }
{
    let mut taken = plane.copied(alloc)?;
    for place in 0..edges.len() {
        take_out(edges, place, &mut taken);
    }
    Ok(taken.first_above(0, 1).is_some())
}

/// Whether such a byte lies in an object's block, or in each of its nodes.
fn is_loose(alloc: Global, object: &Object) -> Result<bool, NoMemory>
    requires inside { list_all (lies_in (length (node_of object.now).plane)) (node_of object.now).edges ≡ true }
    ensures { IfOk result (λ loose. loose ≡ has_loose_byte (node_of object.now).edges 0 (node_of object.now).plane) }
{
    match &object.shape {
        Shape::Region => has_loose_byte(alloc, object.edges.as_slice(), &object.plane),
        Shape::Segment { node, .. } => {
            let node = node.get();
            has_loose_byte(alloc, node.edges.as_slice(), &node.plane)
        }
    }
}

/// Whether an object, or each of its nodes, holds a value that is any word.
fn holds_any(graph: &Graph, object: &Object) -> bool
    ensures { result ≡ edges_hold_any graph.now (node_of object.now).edges }
{
    match &object.shape {
        Shape::Region => edges_hold_any(graph, object.edges.as_slice()),
        Shape::Segment { node, .. } => edges_hold_any(graph, node.get().edges.as_slice()),
    }
}

/// Whether some object has such a byte.
fn some_loose(alloc: Global, graph: &Graph) -> Result<bool, NoMemory>
    ensures { IfOk result (λ loose. loose ≡ some_loose graph.now) }
{
    let count = graph.object_count();
    for key in 0..count {
        match graph.object(key) {
            None => unreachable!(),
            Some(object) => {
                if is_loose(alloc, object)? {
                    return Ok(true);
                }
            }
        }
    }
    Ok(false)
}

/// Whether some object holds a value that is any word.
fn objects_hold_any(graph: &Graph) -> bool
    ensures { result ≡ objects_hold_any graph.now }
{
    let count = graph.object_count();
    for key in 0..count {
        match graph.object(key) {
            None => unreachable!(),
            Some(object) => {
                if holds_any(graph, object) {
                    return true;
                }
            }
        }
    }
    false
}

/// Whether something of a graph may lead anywhere: a byte of class 2 in no edge, or a value that is any word.
pub fn may_lead_anywhere(alloc: Global, graph: &Graph) -> Result<bool, NoMemory>
    ensures { IfOk result (λ anywhere. anywhere ≡ may_lead_anywhere graph.now) }
{
    if some_loose(alloc, graph)? {
        return Ok(true);
    }
    if objects_hold_any(graph) {
        return Ok(true);
    }
    if registers_hold_any(graph, graph.registers()) {
        return Ok(true);
    }
    Ok(ports_hold_any(graph, graph.ports()))
}
