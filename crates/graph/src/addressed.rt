//! Which objects of a graph have an address that something holds.
ghost use Rattle.std.specs.Prelude.{◌≡◌, ◌≤◌, true, length, slice_set, replicate, IfOk};
ghost use Rattle.graph.specs.Addressed.{dead, dead_and_marked, marked, marked_edges, marked_object, marked_objects, marked_ports, marked_registers, marks_of, one_if_both, one_if_dead};

use crate::contents::{Contents, Objects, Values};
use crate::edges::HasValue;
use crate::object::{Object, Shape};
use crate::parts::Held;
use crate::value::Value;
use cbase::NoMemory;
use std::alloc::Global;

/// Marks the object with this key, if there is one.
#[tactic(auto, using(crate::proofs::AllMarked::set_beyond))]
fn mark_object(marks: &mut [bool], object: u32)
    ensures { marks.new ≡ slice_set marks.old object true }
{
    let place = object as usize;
    if place < marks.len() {
        marks[place] = true;
    }
}

/// Marks the object to which the value with this key leads, if it is an address.
fn mark(values: &Values, marks: &mut [bool], key: u32)
    ensures { marks.new ≡ marked values.now marks.old key }
{
    match values.get(key) {
        None => {}
        Some(Value::Const { number: _, size: _ }) => {}
        Some(Value::Number { size: _ }) => {}
        Some(Value::Any) => {}
        Some(
            Value::Address {
                object,
                offset: _,
                target: _,
            },
        ) => mark_object(marks, *object),
    }
}

/// Marks the objects whose addresses edges hold.
fn mark_edges(values: &Values, marks: &mut [bool], edges: &[HasValue])
    ensures { marks.new ≡ marked_edges values.now marks.old edges.now }
{
    let mut left = edges;
    while let [first, rest @ ..] = left {
        mark(values, marks, first.value);
        left = rest;
    }
}

/// Marks the objects whose addresses the edges of an object hold, or those of its nodes, or lie beyond its ends.
fn mark_those_of(values: &Values, marks: &mut [bool], object: &Object)
    ensures { marks.new ≡ marked_object values.now marks.old object.now }
{
    match &object.shape {
        Shape::Region => mark_edges(values, marks, object.edges.as_slice()),
        Shape::Segment {
            twofold,
            next_value,
            prev_value,
            node,
            ..
        } => {
            mark_edges(values, marks, node.get().edges.as_slice());
            mark(values, marks, *next_value);
            if *twofold {
                mark(values, marks, *prev_value);
            }
        }
    }
}

/// Marks the objects whose addresses objects hold.
#[tactic(auto, using(crate::proofs::AllMarked::fold_left, crate::proofs::AllMarked::fold_all))]
fn mark_objects(objects: &Objects, values: &Values, marks: &mut [bool])
    ensures { marks.new ≡ marked_objects values.now marks.old objects.now }
{
    for key in 0..objects.len() {
        match objects.get(key) {
            Some(object) => mark_those_of(values, marks, object),
            None => unreachable!(),
        }
    }
}

/// Marks the objects whose addresses registers hold.
fn mark_registers(values: &Values, marks: &mut [bool], registers: &[Held])
    ensures { marks.new ≡ marked_registers values.now marks.old registers.now }
{
    let mut left = registers;
    while let [first, rest @ ..] = left {
        mark(values, marks, first.value);
        left = rest;
    }
}

/// Marks the objects whose addresses ports hold.
fn mark_ports(values: &Values, marks: &mut [bool], ports: &[u32])
    ensures { marks.new ≡ marked_ports values.now marks.old ports.now }
{
    let mut left = ports;
    while let [first, rest @ ..] = left {
        mark(values, marks, *first);
        left = rest;
    }
}

/// For each object whether an edge, an outward link, a register or a port holds an address of it.
pub(crate) fn marks_of(alloc: Global, contents: &Contents) -> Result<Vec<bool>, NoMemory>
    ensures { IfOk result (λ marks. marks.items ≡ marks_of contents.now) }
{
    let mut marks: Vec<bool> = vec![in alloc; false; contents.objects.len() as usize]?;
    mark_objects(&contents.objects, &contents.values, marks.as_mut_slice());
    mark_registers(
        &contents.values,
        marks.as_mut_slice(),
        contents.registers.as_slice(),
    );
    mark_ports(
        &contents.values,
        marks.as_mut_slice(),
        contents.ports.as_slice(),
    );
    Ok(marks)
}

/// 1 for a dead object, and else 0.
fn one_if_dead(object: &Object) -> u32
    ensures value { result ≡ one_if_dead object.now }
    ensures most { result ≤ 1 }
{
    if object.live { 0 } else { 1 }
}

/// 1 for a dead object with a mark, and else 0.
fn one_if_both(object: &Object, mark: bool) -> u32
    ensures value { result ≡ one_if_both object.now mark }
    ensures most { result ≤ 1 }
{
    if object.live {
        return 0;
    }
    if mark { 1 } else { 0 }
}

/// How many objects are dead.
#[tactic(auto, using(crate::proofs::AllMarked::dead_all))]
pub(crate) fn dead(objects: &Objects) -> u32
    ensures { result ≡ dead objects.now }
{
    let mut count: u32 = 0;
    for key in 0..objects.len() {
        match objects.get(key) {
            Some(object) => count += one_if_dead(object),
            None => unreachable!(),
        }
    }
    count
}

/// How many objects are dead and have a mark.
#[tactic(auto, using(crate::proofs::AllMarked::marked_all))]
pub(crate) fn dead_and_marked(objects: &Objects, marks: &[bool]) -> u32
    requires { length marks.now ≡ length objects.now }
    ensures { result ≡ dead_and_marked objects.now marks.now }
{
    let mut count: u32 = 0;
    for key in 0..objects.len() {
        match objects.get(key) {
            Some(object) => count += one_if_both(object, marks[key as usize]),
            None => unreachable!(),
        }
    }
    count
}
