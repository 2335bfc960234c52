//! Which values something of a graph holds.
ghost use Rattle.std.specs.Prelude.{◌≡◌, true, length, replicate, false, slice_set, IfOk};
ghost use Rattle.graph.specs.WellFormed.{passes_at};
ghost use Rattle.tidying.specs.Marks.{is_marked, marked, edges_marked, object_marked, objects_marked, registers_marked, ports_marked, held_marks};

use cbase::NoMemory;
use graph::{HasValue, Held, KeyedObject, Object, Parts, Shape};
use std::alloc::Global;

/// Whether a key is marked.
pub(crate) fn is_marked(marks: &[bool], key: u32) -> bool
    ensures { result ≡ is_marked marks.now key }
{
    match marks.get(key as usize) {
        None => false,
        Some(mark) => *mark,
    }
}

/// Marks a key, if there is a place for it.
#[tactic(auto, using(crate::proofs::Marked::set_beyond))]
pub(crate) fn mark(marks: &mut [bool], key: u32)
    ensures { marks.new ≡ marked marks.old key }
{
    let place = key as usize;
    if place < marks.len() {
        marks[place] = true;
    }
}

/// Marks the values of edges.
fn mark_edges(marks: &mut [bool], edges: &[HasValue])
    ensures { marks.new ≡ edges_marked marks.old edges.now }
{
    let mut left = edges;
    while let [first, rest @ ..] = left {
        mark(marks, first.value);
        left = rest;
    }
}

/// Marks the values that an object holds in edges and links.
fn mark_object(marks: &mut [bool], object: &Object)
    ensures { marks.new ≡ object_marked marks.old object.now }
{
    match &object.shape {
        Shape::Region => mark_edges(marks, object.edges.as_slice()),
        Shape::Segment {
            next_value,
            prev_value,
            node,
            ..
        } => {
            mark_edges(marks, node.get().edges.as_slice());
            mark(marks, *next_value);
            mark(marks, *prev_value);
        }
    }
}

/// Marks the values that objects hold.
fn mark_objects(marks: &mut [bool], objects: &[KeyedObject])
    ensures { marks.new ≡ objects_marked marks.old objects.now }
{
    let mut left = objects;
    while let [first, rest @ ..] = left {
        mark_object(marks, &first.object);
        left = rest;
    }
}

/// Marks the values that registers hold.
fn mark_registers(marks: &mut [bool], registers: &[Held])
    ensures { marks.new ≡ registers_marked marks.old registers.now }
{
    let mut left = registers;
    while let [first, rest @ ..] = left {
        mark(marks, first.value);
        left = rest;
    }
}

/// Marks the values of ports.
fn mark_ports(marks: &mut [bool], ports: &[u32])
    ensures { marks.new ≡ ports_marked marks.old ports.now }
{
    let mut left = ports;
    while let [first, rest @ ..] = left {
        mark(marks, *first);
        left = rest;
    }
}

/// Of each value whether something holds it.
pub(crate) fn held_marks(alloc: Global, parts: &Parts) -> Result<Vec<bool>, NoMemory>
    ensures { IfOk result (λ marks. marks.items ≡ held_marks parts.now) }
{
    let mut marks: Vec<bool> = vec![in alloc; false; parts.values.len()]?;
    mark_objects(marks.as_mut_slice(), parts.objects.as_slice());
    mark_registers(marks.as_mut_slice(), parts.registers.as_slice());
    mark_ports(marks.as_mut_slice(), parts.ports.as_slice());
    Ok(marks)
}
