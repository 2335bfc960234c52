//! A graph without a segment, which has no nodes.
ghost use Rattle.std.specs.Prelude.{◌≡◌, ◌↔◌, ◌++◌, [], true, not, map, length, nat_eq, IfOk, IfErr, OnOk};
ghost use Rattle.std.specs.List.{filter, list_all};
ghost use Rattle.graph.specs.Meaning.{StandsFor};
ghost use Rattle.graph.specs.Nodes.{own_node};
ghost use Rattle.graph.specs.Renaming.{numbered};
ghost use Rattle.graph.specs.Sizes.{is_zero};
ghost use Rattle.graph.specs.State.{State};
ghost use Rattle.graph.specs.WellFormed.{lies_in};
ghost use Rattle.graph.specs.Whole.{IsGraph};
ghost use Rattle.changes.specs.Fitting.{edges_fit, shape_fits, object_fits};
ghost use Rattle.materialise.specs.Beyond.{emptied_value, value_after};
ghost use Rattle.materialise.specs.Dropped.{edges_now, plane_now, node_now, shape_now, object_now, entry_now, dropped_by, dropped};
ghost use Rattle.materialise.specs.Empty.{may_be_empty, StandsWithout};
ghost use Rattle.materialise.specs.Kept.{HoldsAsBefore};

use crate::beyond::{emptied_value, value_after};
use cbase::{List, NoMemory, Stop};
use changes::{class_for, is_zero};
use graph::{
    Edges, Graph, HasValue, KeyedObject, KeyedValue, Links, Node, Object, Parts, Shape, Template,
    built,
};
use planes::Plane;
use std::alloc::Global;

/// Whether a segment that may have no nodes stands at a key. It takes no memory.
pub fn may_be_empty(graph: &Graph, key: u32) -> bool
    ensures { result ≡ may_be_empty graph.now key }
{
    match graph.object(key) {
        None => false,
        Some(object) => match object.shape.links() {
            None => false,
            Some(links) => links.least == 0,
        },
    }
}

/// Puts edges behind others, but for those whose value becomes the constant 0.
fn push_edges(
    graph: &Graph,
    key: u32,
    links: &Links,
    edges: &[HasValue],
    kept: &mut List<HasValue>,
) -> Result<(), NoMemory>
    ensures { OnOk result (kept.new ≡ kept.old ++ edges_now (value_after graph.now key links.now) edges.now) }
{
    let mut left = edges;
    while let [first, rest @ ..] = left {
        if !is_zero(value_after(graph, key, links, first.value)) {
            kept.push(*first)?;
        }
        left = rest;
    }
    Ok(())
}

/// The edges that stay.
fn edges_now(
    alloc: Global,
    graph: &Graph,
    key: u32,
    links: &Links,
    edges: &[HasValue],
) -> Result<Edges, NoMemory>
    ensures { IfOk result (λ kept. kept ≡ edges_now (value_after graph.now key links.now) edges.now) }
{
    let mut kept = List::new(alloc);
    push_edges(graph, key, links, edges, &mut kept)?;
    Edges::of(alloc, kept.as_slice())
}

/// Gives the bytes of edges the classes of what their values become.
fn fill_classes(graph: &Graph, key: u32, links: &Links, edges: &[HasValue], plane: &mut Plane)
    requires inside { list_all (lies_in (length plane.old)) edges.now ≡ true }
    ensures { plane.new ≡ plane_now (value_after graph.now key links.now) edges.now plane.old }
{
    let mut left = edges;
    while let [first, rest @ ..] = left {
        let class = class_for(value_after(graph, key, links, first.value));
        plane.fill(first.at, first.size as u32, class);
        left = rest;
    }
}

/// What is said of bytes.
fn node_now(
    alloc: Global,
    graph: &Graph,
    key: u32,
    links: &Links,
    node: Node,
) -> Result<Node, NoMemory>
    requires inside { edges_fit node ≡ true }
    ensures { IfOk result (λ now. now ≡ node_now (value_after graph.now key links.now) node) }
{
    let Node { edges, plane } = node;
    let mut plane = plane;
    fill_classes(graph, key, links, edges.as_slice(), &mut plane);
    match edges_now(alloc, graph, key, links, edges.as_slice()) {
        Ok(edges) => Ok(Node { edges, plane }),
        Err(error) => {
            drop(plane);
            Err(error)
        }
    }
}

/// A shape, with what is said of the nodes of a segment.
fn shape_now(
    alloc: Global,
    graph: &Graph,
    key: u32,
    links: &Links,
    shape: Shape,
) -> Result<Shape, NoMemory>
    requires inside { shape_fits shape ≡ true }
    ensures { IfOk result (λ now. now ≡ shape_now (value_after graph.now key links.now) shape) }
{
    match shape {
        Shape::Region => Ok(Shape::Region),
        Shape::Segment {
            twofold,
            head,
            next,
            prev,
            back,
            least,
            next_value,
            prev_value,
            node,
        } => match node_now(alloc, graph, key, links, node.into_node()) {
            Err(error) => Err(error),
            Ok(node) => match Template::new(alloc, node) {
                Err(error) => Err(error),
                Ok(node) => Ok(Shape::Segment {
                    twofold,
                    head,
                    next,
                    prev,
                    back,
                    least,
                    next_value,
                    prev_value,
                    node,
                }),
            },
        },
    }
}

/// An object.
fn object_now(
    alloc: Global,
    graph: &Graph,
    key: u32,
    links: &Links,
    object: Object,
) -> Result<Object, NoMemory>
    requires inside { object_fits object ≡ true }
    ensures { IfOk result (λ now. now ≡ object_now (value_after graph.now key links.now) object) }
{
    let Object {
        size,
        kind,
        live,
        shape,
        edges,
        plane,
    } = object;
    match node_now(alloc, graph, key, links, Node { edges, plane }) {
        Err(error) => {
            drop(shape);
            Err(error)
        }
        Ok(Node { edges, plane }) => match shape_now(alloc, graph, key, links, shape) {
            Ok(shape) => Ok(Object {
                size,
                kind,
                live,
                shape,
                edges,
                plane,
            }),
            Err(error) => {
                drop(edges);
                drop(plane);
                Err(error)
            }
        },
    }
}

/// Puts objects into an empty list, but for the one with a key.
fn keep_objects(
    alloc: Global,
    graph: &Graph,
    key: u32,
    links: &Links,
    objects: List<KeyedObject>,
    kept: &mut List<KeyedObject>,
) -> Result<(), NoMemory>
    requires empty { kept.old ≡ [] }
    requires inside { list_all (λ entry. object_fits entry.object) objects ≡ true }
    ensures { OnOk result (kept.new ≡ filter (λ entry. not (nat_eq entry.key key)) (map (entry_now (value_after graph.now key links.now)) objects)) }
{
    for entry in objects.into_vec() {
        if entry.key != key {
            let object = object_now(alloc, graph, key, links, entry.object)?;
            kept.push(KeyedObject {
                key: entry.key,
                object,
            })?;
        }
    }
    Ok(())
}

/// Puts what values become behind others.
fn push_values(
    graph: &Graph,
    key: u32,
    links: &Links,
    values: &[KeyedValue],
    after: &mut List<KeyedValue>,
) -> Result<(), NoMemory>
    ensures { OnOk result (after.new ≡ after.old ++ map (λ entry. record { key = entry.key; value = emptied_value graph.now key links.now entry.value }) values.now) }
{
    let mut left = values;
    while let [first, rest @ ..] = left {
        after.push(KeyedValue {
            key: first.key,
            value: emptied_value(graph, key, links, first.value),
        })?;
        left = rest;
    }
    Ok(())
}

/// The parts of a graph without a segment.
fn without(
    alloc: Global,
    graph: &Graph,
    key: u32,
    links: &Links,
    parts: Parts,
) -> Result<Parts, NoMemory>
    requires same { parts ≡ graph.now }
    requires graph { IsGraph graph.now }
    ensures { IfOk result (λ after. after ≡ dropped_by graph.now key links.now) }
{
    let Parts {
        objects,
        values,
        variables,
        registers,
        ports,
        unequal,
    } = parts;
    let mut kept = List::new(alloc);
    let mut after = List::new(alloc);
    match keep_objects(alloc, graph, key, links, objects, &mut kept) {
        Err(error) => {
            drop(kept);
            Err(error)
        }
        Ok(()) => match push_values(graph, key, links, values.as_slice(), &mut after) {
            Ok(()) => Ok(Parts {
                objects: kept,
                values: after,
                variables,
                registers,
                ports,
                unequal,
            }),
            Err(error) => {
                drop(kept);
                Err(error)
            }
        },
    }
}

/// The parts of a graph without the segment with a key.
fn dropped(alloc: Global, graph: &Graph, key: u32) -> Result<Parts, NoMemory>
    ensures ok { IfOk result (λ after. after ≡ dropped key graph.now) }
    ensures graph { IsGraph graph.now }
{
    match graph.parts(alloc) {
        Err(error) => Err(error),
        Ok(parts) => match graph.object(key) {
            None => Ok(parts),
            Some(object) => match object.shape.links() {
                None => Ok(parts),
                Some(links) => without(alloc, graph, key, &links, parts),
            },
        },
    }
}

/// The graph without a segment, for the case in which that has no nodes. The segment is gone. Each address of its first node is what lies behind it, moved by
/// how far the address's offset lies behind the place to which links lead, and each address of its last node what lies before it, moved in the same way.
/// Where an edge's value becomes the constant 0, the edge goes, and its bytes have class 0; where it becomes another constant, they have class 1.
///
/// It stands for exactly the states for which the graph stands without nodes of the segment. It names the same variables, and holds values of
/// the same sizes in the same registers and ports; it is never too large. It takes time in proportion to the graph, and to the logarithm of its size for each key.
pub fn drop_segment(alloc: Global, graph: &Graph, object: u32) -> Result<Graph, Stop>
    requires { may_be_empty graph.now object ≡ true }
    ensures ok { IfOk result (λ after. after ≡ numbered (dropped object graph.now)) }
    ensures means { IfOk result (λ after. (state : State) → (StandsFor after state ↔ StandsWithout graph.now object state)) }
    ensures holds { IfOk result (λ after. HoldsAsBefore graph.now after) }
    ensures small { IfErr result (λ stop. stop ≡ Stop.NoMemory) }
{
    match dropped(alloc, graph, object) {
        Err(NoMemory) => Err(Stop::NoMemory),
        Ok(parts) => match built(alloc, parts) {
            Ok(after) => Ok(after),
            Err(Stop::NoMemory) => Err(Stop::NoMemory),
            Err(Stop::Large) => unreachable!(),
        },
    }
}
