//! One value in place of another one, wherever a graph's objects, registers and ports hold that.
ghost use Rattle.std.specs.Prelude.{◌≡◌, ◌++◌, [], true, not, map, length, nat_eq, IfOk, OnOk};
ghost use Rattle.std.specs.List.{filter, list_all};
ghost use Rattle.graph.specs.Nodes.{own_node};
ghost use Rattle.graph.specs.Sizes.{is_zero};
ghost use Rattle.graph.specs.WellFormed.{lies_in, passes_at};
ghost use Rattle.changes.specs.Merging.{merged_key, merged_edge, merged_edges, cleared, merged_plane, merged_node, merged_shape, merged_object, merged_entry, merged_held, merged_pairs, merged};
ghost use Rattle.changes.specs.Fitting.{edges_fit, shape_fits, object_fits};

use crate::pairs::merge_pairs;
use crate::writing::is_zero;
use cbase::{List, NoMemory};
use graph::{Edges, Graph, HasValue, Held, KeyedObject, Node, Object, Parts, Shape, Template};
use planes::Plane;
use std::alloc::Global;

/// The key that stands in place of a key.
pub fn merged_key(kept: u32, gone: u32, key: u32) -> u32
    ensures { result ≡ merged_key kept gone key }
{
    if key == gone { kept } else { key }
}

/// Puts edges behind others, with one value in place of another.
fn push_merged(
    edges: &[HasValue],
    kept: u32,
    gone: u32,
    merged: &mut List<HasValue>,
) -> Result<(), NoMemory>
    ensures { OnOk result (merged.new ≡ merged.old ++ map (merged_edge kept gone) edges.now) }
{
    let mut left = edges;
    while let [first, rest @ ..] = left {
        merged.push(HasValue {
            at: first.at,
            size: first.size,
            value: merged_key(kept, gone, first.value),
        })?;
        left = rest;
    }
    Ok(())
}

/// Puts the edges that do not hold a value behind others.
fn push_others(edges: &[HasValue], gone: u32, others: &mut List<HasValue>) -> Result<(), NoMemory>
    ensures { OnOk result (others.new ≡ others.old ++ filter (λ edge. not (nat_eq edge.value gone)) edges.now) }
{
    let mut left = edges;
    while let [first, rest @ ..] = left {
        if first.value != gone {
            others.push(*first)?;
        }
        left = rest;
    }
    Ok(())
}

/// Edges with one value in place of another.
fn merged_edges(
    alloc: Global,
    zero: bool,
    kept: u32,
    gone: u32,
    edges: &[HasValue],
) -> Result<Edges, NoMemory>
    ensures { IfOk result (λ merged. merged ≡ merged_edges zero kept gone edges.now) }
{
    let mut items = List::new(alloc);
    if zero {
        push_others(edges, gone, &mut items)?;
    } else {
        push_merged(edges, kept, gone, &mut items)?;
    }
    Edges::of(alloc, items.as_slice())
}

/// Gives the bytes of edges that hold a value class 0.
fn clear(edges: &[HasValue], gone: u32, plane: &mut Plane)
    requires inside { list_all (lies_in (length plane.old)) edges.now ≡ true }
    ensures { plane.new ≡ cleared gone edges.now plane.old }
{
    let mut left = edges;
    while let [first, rest @ ..] = left {
        if first.value == gone {
            plane.fill(first.at, first.size as u32, 0);
        }
        left = rest;
    }
}

/// A plane with class 0 at the bytes of edges that hold a value, if that becomes 0.
fn merged_plane(
    alloc: Global,
    zero: bool,
    gone: u32,
    edges: &[HasValue],
    plane: &Plane,
) -> Result<Plane, NoMemory>
    requires inside { list_all (lies_in (length plane.now)) edges.now ≡ true }
    ensures { IfOk result (λ merged. merged ≡ merged_plane zero gone edges.now plane.now) }
{
    match plane.copied(alloc) {
        Err(error) => Err(error),
        Ok(copy) => {
            let mut merged = copy;
            if zero {
                clear(edges, gone, &mut merged);
            }
            Ok(merged)
        }
    }
}

/// What is said of bytes, with one value in place of another.
fn merged_node(
    alloc: Global,
    zero: bool,
    kept: u32,
    gone: u32,
    node: &Node,
) -> Result<Node, NoMemory>
    requires inside { edges_fit node.now ≡ true }
    ensures { IfOk result (λ merged. merged ≡ merged_node zero kept gone node.now) }
{
    let plane = merged_plane(alloc, zero, gone, node.edges.as_slice(), &node.plane)?;
    match merged_edges(alloc, zero, kept, gone, node.edges.as_slice()) {
        Ok(edges) => Ok(Node { edges, plane }),
        Err(error) => {
            drop(plane);
            Err(error)
        }
    }
}

/// A shape, with one value in place of another in what is said of nodes.
fn merged_shape(
    alloc: Global,
    zero: bool,
    kept: u32,
    gone: u32,
    shape: &Shape,
) -> Result<Shape, NoMemory>
    requires inside { shape_fits shape.now ≡ true }
    ensures { IfOk result (λ merged. merged ≡ merged_shape zero kept gone shape.now) }
{
    match shape {
        Shape::Region => Ok(Shape::Region),
        Shape::Segment {
            twofold,
            head,
            next,
            prev,
            back,
            least,
            next_value,
            prev_value,
            node,
        } => match merged_node(alloc, zero, kept, gone, node.get()) {
            Err(error) => Err(error),
            Ok(node) => match Template::new(alloc, node) {
                Err(error) => Err(error),
                Ok(node) => Ok(Shape::Segment {
                    twofold: *twofold,
                    head: *head,
                    next: *next,
                    prev: *prev,
                    back: *back,
                    least: *least,
                    next_value: *next_value,
                    prev_value: *prev_value,
                    node,
                }),
            },
        },
    }
}

/// An object, with one value in place of another.
fn merged_object(
    alloc: Global,
    zero: bool,
    kept: u32,
    gone: u32,
    object: &Object,
) -> Result<Object, NoMemory>
    requires inside { object_fits object.now ≡ true }
    ensures { IfOk result (λ merged. merged ≡ merged_object zero kept gone object.now) }
{
    match merged_shape(alloc, zero, kept, gone, &object.shape) {
        Err(error) => Err(error),
        Ok(shape) => {
            let own = merged_own(alloc, zero, kept, gone, object);
            match own {
                Ok(Node { edges, plane }) => Ok(Object {
                    size: object.size,
                    kind: object.kind,
                    live: object.live,
                    shape,
                    edges,
                    plane,
                }),
                Err(error) => {
                    drop(shape);
                    Err(error)
                }
            }
        }
    }
}

/// What is said of the bytes of an object's own block, with one value in place of another.
fn merged_own(
    alloc: Global,
    zero: bool,
    kept: u32,
    gone: u32,
    object: &Object,
) -> Result<Node, NoMemory>
    requires inside { object_fits object.now ≡ true }
    ensures { IfOk result (λ own. own ≡ merged_node zero kept gone (own_node object.now)) }
{
    let plane = merged_plane(alloc, zero, gone, object.edges.as_slice(), &object.plane)?;
    match merged_edges(alloc, zero, kept, gone, object.edges.as_slice()) {
        Ok(edges) => Ok(Node { edges, plane }),
        Err(error) => {
            drop(plane);
            Err(error)
        }
    }
}

/// Puts objects behind others, with one value in place of another.
fn merge_objects(
    alloc: Global,
    zero: bool,
    kept: u32,
    gone: u32,
    objects: &[KeyedObject],
    merged: &mut List<KeyedObject>,
) -> Result<(), NoMemory>
    requires inside { list_all (λ entry. object_fits entry.object) objects.now ≡ true }
    ensures { OnOk result (merged.new ≡ merged.old ++ map (merged_entry zero kept gone) objects.now) }
{
    let mut left = objects;
    while let [first, rest @ ..] = left {
        let object = merged_object(alloc, zero, kept, gone, &first.object)?;
        merged.push(KeyedObject {
            key: first.key,
            object,
        })?;
        left = rest;
    }
    Ok(())
}

/// Puts registers behind others, with one value in place of another.
fn merge_registers(
    registers: &[Held],
    kept: u32,
    gone: u32,
    merged: &mut List<Held>,
) -> Result<(), NoMemory>
    ensures { OnOk result (merged.new ≡ merged.old ++ map (merged_held kept gone) registers.now) }
{
    let mut left = registers;
    while let [first, rest @ ..] = left {
        merged.push(Held {
            register: first.register,
            value: merged_key(kept, gone, first.value),
        })?;
        left = rest;
    }
    Ok(())
}

/// Puts ports behind others, with one value in place of another.
fn merge_ports(ports: &[u32], kept: u32, gone: u32, merged: &mut List<u32>) -> Result<(), NoMemory>
    ensures { OnOk result (merged.new ≡ merged.old ++ map (merged_key kept gone) ports.now) }
{
    let mut left = ports;
    while let [first, rest @ ..] = left {
        merged.push(merged_key(kept, gone, *first))?;
        left = rest;
    }
    Ok(())
}

/// Whether the value with a key is the constant 0.
fn is_zero_at(graph: &Graph, key: u32) -> bool
    ensures { result ≡ passes_at graph.now is_zero key }
{
    match graph.value(key) {
        None => false,
        Some(value) => is_zero(*value),
    }
}

/// Puts a graph's registers, ports and pairs, with one value in place of another, into parts.
fn merge_rest(
    alloc: Global,
    graph: &Graph,
    kept: u32,
    gone: u32,
    after: &mut Parts,
) -> Result<(), NoMemory>
    ensures { OnOk result (after.new ≡ record after.old { registers = map (merged_held kept gone) graph.now.registers; ports = map (merged_key kept gone) graph.now.ports; unequal = merged_pairs graph.now kept gone graph.now.unequal }) }
{
    let mut registers = List::new(alloc);
    merge_registers(graph.registers(), kept, gone, &mut registers)?;
    let mut ports = List::new(alloc);
    merge_ports(graph.ports(), kept, gone, &mut ports)?;
    let mut unequal = List::new(alloc);
    merge_pairs(graph, kept, gone, &mut unequal)?;
    after.registers = registers;
    after.ports = ports;
    after.unequal = unequal;
    Ok(())
}

/// Gives parts the objects of a graph's, with one value in place of another.
fn merge_all(
    alloc: Global,
    zero: bool,
    kept: u32,
    gone: u32,
    after: &mut Parts,
) -> Result<(), NoMemory>
    requires inside { list_all (λ entry. object_fits entry.object) after.old.objects ≡ true }
    ensures { OnOk result (after.new ≡ record after.old { objects = map (merged_entry zero kept gone) after.old.objects }) }
{
    let mut objects = List::new(alloc);
    match merge_objects(
        alloc,
        zero,
        kept,
        gone,
        after.objects.as_slice(),
        &mut objects,
    ) {
        Ok(()) => {
            after.objects = objects;
            Ok(())
        }
        Err(error) => Err(error),
    }
}

/// A graph's parts in which all that holds one value holds another one in its place, and the pairs of the one are pairs of the
/// other. Where that is the constant 0, the bytes that held the one have class 0 and no edge.
///
/// Edges and planes are copied twice. It takes time in proportion to the graph, and to its unequal pairs for each pair of the value that goes.
pub fn merged(alloc: Global, graph: &Graph, kept: u32, gone: u32) -> Result<Parts, NoMemory>
    ensures { IfOk result (λ after. after ≡ merged kept gone graph.now) }
{
    let zero = is_zero_at(graph, kept);
    match graph.parts(alloc) {
        Err(error) => Err(error),
        Ok(parts) => {
            let mut after = parts;
            match merge_all(alloc, zero, kept, gone, &mut after) {
                Ok(()) => match merge_rest(alloc, graph, kept, gone, &mut after) {
                    Ok(()) => Ok(after),
                    Err(error) => {
                        drop(after);
                        Err(error)
                    }
                },
                Err(error) => {
                    drop(after);
                    Err(error)
                }
            }
        }
    }
}
