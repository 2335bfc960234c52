ghost use Rattle.std.specs.Prelude.{◌≡◌, ◌<◌, [], length, map, IfOk, OnOk};
ghost use Rattle.std.specs.List.{AllPairs};
ghost use Rattle.graph.specs.Renaming.{place_among, object_keys, value_keys, renamed_edge, renamed_node, renamed_shape, renamed_object, renamed_value, renamed_pair};
ghost use Rattle.graph.specs.WellFormed.{HasAscendingKeys};
ghost use Rattle.graph.specs.Whole.{no_contents, placed};

use crate::contents::{Contents, Objects, Values};
use crate::edges::{Edges, HasValue};
use crate::keyed::MOST_KEYS;
use crate::object::{Object, Shape};
use crate::parts::{Held, KeyedObject, KeyedValue, Named, Pair, Parts};
use crate::template::{Node, Template};
use crate::value::Value;
use cbase::{List, NoMemory};
use std::alloc::Global;

/// The place of a key among these, found by halves; how many they are where it is none of them.
pub(crate) fn place_of(keys: &[u32], key: u32) -> u32
    requires few { length keys.now < 4294967296 }
    requires ascending { AllPairs (λ one other. one < other) keys.now }
    ensures { result ≡ place_among keys.now key }
{
    match keys.binary_search(&key) {
        Ok(place) => place as u32,
        Err(_) => keys.len() as u32,
    }
}

/// Puts parts, with places in place of keys, into empty contents. Objects and lists are moved, and values copied.
pub(crate) fn place_parts(
    alloc: Global,
    parts: Parts,
    contents: &mut Contents,
) -> Result<(), NoMemory>
    requires ascending { HasAscendingKeys parts }
    requires empty { contents.old ≡ no_contents }
    ensures { OnOk result (contents.new ≡ placed parts) }
{
    let mut objects = List::new(alloc);
    let mut values = List::new(alloc);
    match push_keys(&parts, &mut objects, &mut values) {
        Ok(()) => place_under(
            alloc,
            objects.as_slice(),
            values.as_slice(),
            parts,
            contents,
        ),
        Err(error) => {
            drop(parts);
            Err(error)
        }
    }
}

/// Puts the keys of objects and of values, in order, into empty lists. Each place in them is a `u32`.
fn push_keys(parts: &Parts, objects: &mut List<u32>, values: &mut List<u32>) -> Result<(), NoMemory>
    requires ascending { HasAscendingKeys parts.now }
    requires no_objects { objects.old ≡ [] }
    requires no_values { values.old ≡ [] }
    ensures objects { OnOk result (objects.new ≡ object_keys parts.now) }
    ensures values { OnOk result (values.new ≡ value_keys parts.now) }
    ensures few_objects { OnOk result (length objects.new < 4294967296) }
    ensures few_values { OnOk result (length values.new < 4294967296) }
    ensures objects_ascend { OnOk result (AllPairs (λ one other. one < other) objects.new) }
    ensures values_ascend { OnOk result (AllPairs (λ one other. one < other) values.new) }
{
    push_object_keys(parts, objects)?;
    push_value_keys(parts, values)?;
    Ok(())
}

/// Puts the keys of objects, in order, into an empty list. Each place in it is a `u32`.
fn push_object_keys(parts: &Parts, keys: &mut List<u32>) -> Result<(), NoMemory>
    requires { keys.old ≡ [] }
    ensures keys { OnOk result (keys.new ≡ object_keys parts.now) }
    ensures few { OnOk result (length keys.new < 4294967296) }
{
    if parts.objects.len() >= MOST_KEYS {
        return Err(NoMemory);
    }
    for entry in parts.objects.as_slice() {
        keys.push(entry.key)?;
    }
    Ok(())
}

/// Puts the keys of values, in order, into an empty list. Each place in it is a `u32`.
fn push_value_keys(parts: &Parts, keys: &mut List<u32>) -> Result<(), NoMemory>
    requires { keys.old ≡ [] }
    ensures keys { OnOk result (keys.new ≡ value_keys parts.now) }
    ensures few { OnOk result (length keys.new < 4294967296) }
{
    if parts.values.len() >= MOST_KEYS {
        return Err(NoMemory);
    }
    for entry in parts.values.as_slice() {
        keys.push(entry.key)?;
    }
    Ok(())
}

/// Puts parts, with places among these keys in place of keys, into empty contents.
fn place_under(
    alloc: Global,
    objects: &[u32],
    values: &[u32],
    parts: Parts,
    contents: &mut Contents,
) -> Result<(), NoMemory>
    requires objects { objects.now ≡ object_keys parts }
    requires values { values.now ≡ value_keys parts }
    requires few_objects { length objects.now < 4294967296 }
    requires few_values { length values.now < 4294967296 }
    requires objects_ascend { AllPairs (λ one other. one < other) objects.now }
    requires values_ascend { AllPairs (λ one other. one < other) values.now }
    requires empty { contents.old ≡ no_contents }
    ensures { OnOk result (contents.new ≡ placed parts) }
{
    let Parts {
        objects: entries,
        values: others,
        variables,
        registers,
        ports,
        unequal,
    } = parts;
    place_objects(alloc, values, entries, &mut contents.objects)?;
    place_values(objects, others.as_slice(), &mut contents.values)?;
    contents.variables = placed_variables(objects, variables);
    contents.registers = placed_registers(values, registers);
    contents.ports = placed_ports(values, ports);
    contents.unequal = placed_pairs(values, unequal);
    Ok(())
}

/// Has edges hold values by their places.
pub(crate) fn place_edges(keys: &[u32], edges: &mut [HasValue])
    requires few { length keys.now < 4294967296 }
    requires ascending { AllPairs (λ one other. one < other) keys.now }
    ensures { edges.new ≡ map (renamed_edge (place_among keys.now)) edges.old }
{
    for edge in edges.iter_mut() {
        edge.value = place_of(keys, edge.value);
    }
}

/// A node whose edges hold values by their places. Nothing is copied.
fn placed_node(keys: &[u32], node: Node) -> Node
    requires few { length keys.now < 4294967296 }
    requires ascending { AllPairs (λ one other. one < other) keys.now }
    ensures { result ≡ renamed_node (place_among keys.now) node }
{
    let Node { edges, plane } = node;
    Node {
        edges: edges.placed(keys),
        plane,
    }
}

/// A shape that names values by their places.
fn placed_shape(alloc: Global, keys: &[u32], shape: Shape) -> Result<Shape, NoMemory>
    requires few { length keys.now < 4294967296 }
    requires ascending { AllPairs (λ one other. one < other) keys.now }
    ensures { IfOk result (λ placed. placed ≡ renamed_shape (place_among keys.now) shape) }
{
    match shape {
        Shape::Region => Ok(Shape::Region),
        Shape::Segment {
            twofold,
            head,
            next,
            prev,
            back,
            least,
            next_value,
            prev_value,
            node,
        } => {
            let node = placed_node(keys, node.into_node());
            Ok(Shape::Segment {
                twofold,
                head,
                next,
                prev,
                back,
                least,
                next_value: place_of(keys, next_value),
                prev_value: place_of(keys, prev_value),
                node: Template::new(alloc, node)?,
            })
        }
    }
}

/// An object that names values by their places. Its edges and its plane are moved.
fn placed_object(alloc: Global, keys: &[u32], object: Object) -> Result<Object, NoMemory>
    requires few { length keys.now < 4294967296 }
    requires ascending { AllPairs (λ one other. one < other) keys.now }
    ensures { IfOk result (λ placed. placed ≡ renamed_object (place_among keys.now) object) }
{
    let Object {
        size,
        kind,
        live,
        shape,
        edges,
        plane,
    } = object;
    match placed_shape(alloc, keys, shape) {
        Ok(shape) => Ok(Object {
            size,
            kind,
            live,
            shape,
            edges: edges.placed(keys),
            plane,
        }),
        Err(error) => {
            drop(edges);
            drop(plane);
            Err(error)
        }
    }
}

/// Puts objects under their places, with edges that hold values by theirs.
fn place_objects(
    alloc: Global,
    keys: &[u32],
    objects: List<KeyedObject>,
    placed: &mut Objects,
) -> Result<(), NoMemory>
    requires few { length keys.now < 4294967296 }
    requires ascending { AllPairs (λ one other. one < other) keys.now }
    requires empty { placed.old ≡ [] }
    ensures { OnOk result (placed.new ≡ map (λ entry. renamed_object (place_among keys.now) entry.object) objects) }
{
    placed.reserve(objects.len())?;
    for entry in objects.into_vec() {
        let KeyedObject { key: _, object } = entry;
        placed.push(placed_object(alloc, keys, object)?)?;
    }
    Ok(())
}

/// A value that leads to an object by its place.
fn placed_value(keys: &[u32], value: Value) -> Value
    requires few { length keys.now < 4294967296 }
    requires ascending { AllPairs (λ one other. one < other) keys.now }
    ensures { result ≡ renamed_value (place_among keys.now) value }
{
    match value {
        Value::Const { number, size } => Value::Const { number, size },
        Value::Number { size } => Value::Number { size },
        Value::Any => Value::Any,
        Value::Address {
            object,
            offset,
            target,
        } => Value::Address {
            object: place_of(keys, object),
            offset,
            target,
        },
    }
}

/// Puts values under their places. They lead to objects by theirs.
fn place_values(keys: &[u32], values: &[KeyedValue], placed: &mut Values) -> Result<(), NoMemory>
    requires few { length keys.now < 4294967296 }
    requires ascending { AllPairs (λ one other. one < other) keys.now }
    requires empty { placed.old ≡ [] }
    ensures { OnOk result (placed.new ≡ map (λ entry. renamed_value (place_among keys.now) entry.value) values.now) }
{
    placed.reserve(values.len())?;
    for entry in values {
        placed.push(placed_value(keys, entry.value))?;
    }
    Ok(())
}

/// Variables with the places of their objects. It takes no memory, and neither do the next three.
fn placed_variables(keys: &[u32], variables: List<Named>) -> List<Named>
    requires few { length keys.now < 4294967296 }
    requires ascending { AllPairs (λ one other. one < other) keys.now }
    ensures { result ≡ map {B = Named} (λ named. record { variable = named.variable; object = place_among keys.now named.object }) variables }
{
    let mut items = variables.into_vec();
    place_variables(keys, items.as_mut_slice());
    List::from_vec(items)
}

/// Gives variables the places of their objects.
fn place_variables(keys: &[u32], variables: &mut [Named])
    requires few { length keys.now < 4294967296 }
    requires ascending { AllPairs (λ one other. one < other) keys.now }
    ensures { variables.new ≡ map {B = Named} (λ named. record { variable = named.variable; object = place_among keys.now named.object }) variables.old }
{
    for named in variables.iter_mut() {
        named.object = place_of(keys, named.object);
    }
}

/// Registers with the places of their values.
fn placed_registers(keys: &[u32], registers: List<Held>) -> List<Held>
    requires few { length keys.now < 4294967296 }
    requires ascending { AllPairs (λ one other. one < other) keys.now }
    ensures { result ≡ map {B = Held} (λ held. record { register = held.register; value = place_among keys.now held.value }) registers }
{
    let mut items = registers.into_vec();
    place_registers(keys, items.as_mut_slice());
    List::from_vec(items)
}

/// Gives registers the places of their values.
fn place_registers(keys: &[u32], registers: &mut [Held])
    requires few { length keys.now < 4294967296 }
    requires ascending { AllPairs (λ one other. one < other) keys.now }
    ensures { registers.new ≡ map {B = Held} (λ held. record { register = held.register; value = place_among keys.now held.value }) registers.old }
{
    for held in registers.iter_mut() {
        held.value = place_of(keys, held.value);
    }
}

/// Ports as the places of their values.
fn placed_ports(keys: &[u32], ports: List<u32>) -> List<u32>
    requires few { length keys.now < 4294967296 }
    requires ascending { AllPairs (λ one other. one < other) keys.now }
    ensures { result ≡ map (place_among keys.now) ports }
{
    let mut items = ports.into_vec();
    place_ports(keys, items.as_mut_slice());
    List::from_vec(items)
}

/// Puts the places of values in place of their keys.
fn place_ports(keys: &[u32], ports: &mut [u32])
    requires few { length keys.now < 4294967296 }
    requires ascending { AllPairs (λ one other. one < other) keys.now }
    ensures { ports.new ≡ map (place_among keys.now) ports.old }
{
    for port in ports.iter_mut() {
        *port = place_of(keys, *port);
    }
}

/// Pairs of the places of values.
fn placed_pairs(keys: &[u32], pairs: List<Pair>) -> List<Pair>
    requires few { length keys.now < 4294967296 }
    requires ascending { AllPairs (λ one other. one < other) keys.now }
    ensures { result ≡ map (renamed_pair (place_among keys.now)) pairs }
{
    let mut items = pairs.into_vec();
    place_pairs(keys, items.as_mut_slice());
    List::from_vec(items)
}

/// Gives pairs the places of their values.
fn place_pairs(keys: &[u32], pairs: &mut [Pair])
    requires few { length keys.now < 4294967296 }
    requires ascending { AllPairs (λ one other. one < other) keys.now }
    ensures { pairs.new ≡ map (renamed_pair (place_among keys.now)) pairs.old }
{
    for pair in pairs.iter_mut() {
        *pair = Pair {
            left: place_of(keys, pair.left),
            right: place_of(keys, pair.right),
        };
    }
}
