ghost use Rattle.std.specs.Prelude.{◌≡◌, [], IfOk, OnOk};
ghost use Rattle.graph.specs.Renaming.{objects_from, values_from};
ghost use Rattle.graph.specs.Whole.{entries_of, no_contents, no_parts};

use crate::contents::{Contents, Objects, Values};
use crate::edges::Edges;
use crate::object::{Object, Shape};
use crate::parts::{KeyedObject, KeyedValue, Parts};
use crate::template::{Node, Template};
use cbase::{List, NoMemory};
use std::alloc::Global;

/// Puts the same contents into empty ones.
pub(crate) fn copy_contents(
    alloc: Global,
    contents: &Contents,
    copy: &mut Contents,
) -> Result<(), NoMemory>
    requires { copy.old ≡ no_contents }
    ensures { OnOk result (copy.new ≡ contents.now) }
{
    copy_objects(alloc, &contents.objects, &mut copy.objects)?;
    copy_values(&contents.values, &mut copy.values)?;
    copy_items(alloc, &contents.variables, &mut copy.variables)?;
    copy_items(alloc, &contents.registers, &mut copy.registers)?;
    copy_items(alloc, &contents.ports, &mut copy.ports)?;
    copy_items(alloc, &contents.unequal, &mut copy.unequal)?;
    Ok(())
}

/// Puts the same contents, with their keys, into empty parts.
pub(crate) fn key_contents(
    alloc: Global,
    contents: &Contents,
    parts: &mut Parts,
) -> Result<(), NoMemory>
    requires { parts.old ≡ no_parts }
    ensures { OnOk result (parts.new ≡ entries_of contents.now) }
{
    key_objects(alloc, &contents.objects, &mut parts.objects)?;
    key_values(&contents.values, &mut parts.values)?;
    copy_items(alloc, &contents.variables, &mut parts.variables)?;
    copy_items(alloc, &contents.registers, &mut parts.registers)?;
    copy_items(alloc, &contents.ports, &mut parts.ports)?;
    copy_items(alloc, &contents.unequal, &mut parts.unequal)?;
    Ok(())
}

/// Makes a list one with the same items as another.
fn copy_items<T: Copy>(alloc: Global, items: &List<T>, copy: &mut List<T>) -> Result<(), NoMemory>
    ensures { OnOk result (copy.new ≡ items.now) }
{
    *copy = List::from_vec(Vec::from_slice(alloc, items.as_slice())?);
    Ok(())
}

/// An equal node.
fn copied_node(alloc: Global, node: &Node) -> Result<Node, NoMemory>
    ensures { IfOk result (λ copy. copy ≡ node.now) }
{
    let edges = Edges::of(alloc, node.edges.as_slice())?;
    match node.plane.copied(alloc) {
        Ok(plane) => Ok(Node { edges, plane }),
        Err(error) => {
            drop(edges);
            Err(error)
        }
    }
}

/// An equal shape.
fn copied_shape(alloc: Global, shape: &Shape) -> Result<Shape, NoMemory>
    ensures { IfOk result (λ copy. copy ≡ shape.now) }
{
    match shape {
        Shape::Region => Ok(Shape::Region),
        Shape::Segment {
            twofold,
            head,
            next,
            prev,
            back,
            least,
            next_value,
            prev_value,
            node,
        } => {
            let node = copied_node(alloc, node.get())?;
            Ok(Shape::Segment {
                twofold: *twofold,
                head: *head,
                next: *next,
                prev: *prev,
                back: *back,
                least: *least,
                next_value: *next_value,
                prev_value: *prev_value,
                node: Template::new(alloc, node)?,
            })
        }
    }
}

/// An object with the size, kind, life and plane of another, and with this shape and these edges.
fn with_shape(
    alloc: Global,
    object: &Object,
    shape: Shape,
    edges: Edges,
) -> Result<Object, NoMemory>
    ensures { IfOk result (λ copy. copy ≡ record object.now { shape = shape; edges = edges }) }
{
    match object.plane.copied(alloc) {
        Ok(plane) => Ok(Object {
            size: object.size,
            kind: object.kind,
            live: object.live,
            shape,
            edges,
            plane,
        }),
        Err(error) => {
            drop(shape);
            drop(edges);
            Err(error)
        }
    }
}

/// An equal object.
fn copied_object(alloc: Global, object: &Object) -> Result<Object, NoMemory>
    ensures { IfOk result (λ copy. copy ≡ object.now) }
{
    let edges = Edges::of(alloc, object.edges.as_slice())?;
    match copied_shape(alloc, &object.shape) {
        Ok(shape) => with_shape(alloc, object, shape, edges),
        Err(error) => {
            drop(edges);
            Err(error)
        }
    }
}

/// Puts the same objects under the same keys.
#[tactic(auto, using(crate::proofs::AtPlaces::take_more_get, crate::proofs::AtPlaces::take_whole))]
fn copy_objects(alloc: Global, objects: &Objects, copy: &mut Objects) -> Result<(), NoMemory>
    requires { copy.old ≡ [] }
    ensures { OnOk result (copy.new ≡ objects.now) }
{
    copy.reserve(objects.len() as usize)?;
    for key in 0..objects.len() {
        match objects.get(key) {
            Some(object) => copy.push(copied_object(alloc, object)?)?,
            None => unreachable!(),
        }
    }
    Ok(())
}

/// Puts the same values under the same keys.
#[tactic(auto, using(crate::proofs::AtPlaces::take_more_get, crate::proofs::AtPlaces::take_whole))]
fn copy_values(values: &Values, copy: &mut Values) -> Result<(), NoMemory>
    requires { copy.old ≡ [] }
    ensures { OnOk result (copy.new ≡ values.now) }
{
    copy.reserve(values.len() as usize)?;
    for key in 0..values.len() {
        match values.get(key) {
            Some(value) => copy.push(*value)?,
            None => unreachable!(),
        }
    }
    Ok(())
}

/// Puts the objects with their keys into an empty list.
#[tactic(auto, using(crate::proofs::AtPlaces::objects_more, crate::proofs::AtPlaces::take_whole))]
fn key_objects(
    alloc: Global,
    objects: &Objects,
    entries: &mut List<KeyedObject>,
) -> Result<(), NoMemory>
    requires { entries.old ≡ [] }
    ensures { OnOk result (entries.new ≡ objects_from 0 objects.now) }
{
    for key in 0..objects.len() {
        match objects.get(key) {
            Some(object) => {
                let object = copied_object(alloc, object)?;
                entries.push(KeyedObject { key, object })?;
            }
            None => unreachable!(),
        }
    }
    Ok(())
}

/// Puts the values with their keys into an empty list.
#[tactic(auto, using(crate::proofs::AtPlaces::values_more, crate::proofs::AtPlaces::take_whole))]
fn key_values(values: &Values, entries: &mut List<KeyedValue>) -> Result<(), NoMemory>
    requires { entries.old ≡ [] }
    ensures { OnOk result (entries.new ≡ values_from 0 values.now) }
{
    for key in 0..values.len() {
        match values.get(key) {
            Some(value) => entries.push(KeyedValue { key, value: *value })?,
            None => unreachable!(),
        }
    }
    Ok(())
}
