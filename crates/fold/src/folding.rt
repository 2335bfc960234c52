//! A graph in which two neighbours are one segment.
ghost use Rattle.std.specs.Prelude.{◌≡◌, ◌<◌, ◌+◌, ◌++◌, [], ◌∷◌, true, Some, not, map, length, slice_get, option_map, nat_eq, nat_le, IfOk, OnOk};
ghost use Rattle.std.specs.List.{filter, AllPairs};
ghost use Rattle.graph.specs.declared.value.Target.TheVariants.{Last};
ghost use Rattle.graph.specs.declared.value.Value.TheVariants.{Const};
ghost use Rattle.graph.specs.Maps.{object_at};
ghost use Rattle.graph.specs.Nodes.{node_of};
ghost use Rattle.graph.specs.Renaming.{values_from};
ghost use Rattle.graph.specs.Whole.{IsGraph};
ghost use Rattle.changes.specs.Parts.{replaced};
ghost use Rattle.fold.specs.Foldable.{are_neighbours, has_neighbours};
ghost use Rattle.fold.specs.Folded.{own_addresses, joined_node, least_of, segment_of, joined_object, of_first, of_second, folded_value, folded_values, stands_in, folded_by, folded_links, folded};
ghost use Rattle.fold.specs.Linked.{onward, backward};
ghost use Rattle.fold.specs.Standing.{others, standing};

use crate::fold::Fold;
use crate::joined::{edges_of, joined_edges, joined_plane, plane_of, push_own};
use crate::links::{backward, onward};
use crate::standing::push_others;
use cbase::{List, NoMemory};
use graph::{
    Edges, Graph, HasValue, KeyedObject, KeyedValue, Node, Object, Parts, Shape, Target, Template,
    Value,
};
use planes::Plane;
use std::alloc::Global;

/// What is said of each node.
#[tactic(auto, using(crate::proofs::Rooms::planes_same, crate::proofs::Rooms::next_room, crate::proofs::Rooms::prev_room))]
fn joined_node(
    alloc: Global,
    graph: &Graph,
    fold: &Fold,
    one: &Object,
    other: &Object,
    behind: &[HasValue],
    edges: &[HasValue],
) -> Result<Node, NoMemory>
    requires first { object_at graph.now.objects fold.now.first ≡ Some one.now }
    requires second { object_at graph.now.objects fold.now.second ≡ Some other.now }
    requires neighbours { are_neighbours graph.now fold.now one.now other.now ≡ true }
    requires behind { behind.now ≡ others fold.now (node_of other.now).edges }
    requires edges { edges.now ≡ others fold.now (node_of one.now).edges }
    requires few { length graph.now.values + 1 + length edges.now < 4294967296 }
    ensures { IfOk result (λ node. node ≡ joined_node graph.now fold.now one.now other.now) }
{
    let null = graph.value_count();
    match joined_plane(alloc, fold, plane_of(one), plane_of(other)) {
        Err(error) => Err(error),
        Ok(plane) => match joined_edges(alloc, graph, fold, behind, null + 1, edges) {
            Ok(edges) => Ok(Node { edges, plane }),
            Err(error) => {
                drop(plane);
                Err(error)
            }
        },
    }
}

/// For how many nodes an object stands at least.
fn least_of(object: &Object) -> u32
    ensures { result ≡ least_of object.now.shape }
{
    match object.shape.links() {
        None => 1,
        Some(links) => links.least,
    }
}

/// The segment in place of two neighbours. Numbers of nodes that no graph has are given up.
fn segment(
    alloc: Global,
    fold: &Fold,
    one: &Object,
    other: &Object,
    next_value: u32,
    prev_value: u32,
    node: Node,
) -> Result<Object, NoMemory>
    ensures { IfOk result (λ object. object ≡ record one.now { shape = segment_of fold.now (least_of one.now.shape + least_of other.now.shape) next_value prev_value node; edges = []; plane = [] }) }
{
    let least = least_of(one);
    let more = least_of(other);
    if least > u32::MAX - more {
        drop(node);
        return Err(NoMemory);
    }
    match Template::new(alloc, node) {
        Err(error) => Err(error),
        Ok(node) => match Edges::of(alloc, &[]) {
            Err(error) => {
                drop(node);
                Err(error)
            }
            Ok(edges) => match Plane::new(alloc, 0, 0) {
                Err(error) => {
                    drop(node);
                    drop(edges);
                    Err(error)
                }
                Ok(plane) => Ok(Object {
                    size: one.size,
                    kind: one.kind,
                    live: one.live,
                    shape: Shape::Segment {
                        twofold: fold.twofold,
                        head: fold.head,
                        next: fold.next,
                        prev: fold.prev,
                        back: fold.back,
                        least: least + more,
                        next_value,
                        prev_value,
                        node,
                    },
                    edges,
                    plane,
                }),
            },
        },
    }
}

/// What an address of the first neighbour becomes.
fn of_first(fold: &Fold, offset: i64, target: Target) -> Option<Value>
    ensures { result ≡ of_first fold.now offset target }
{
    match target {
        Target::Region => Some(Value::Address {
            object: fold.first,
            offset,
            target: Target::First,
        }),
        Target::First => Some(Value::Address {
            object: fold.first,
            offset,
            target: Target::First,
        }),
        Target::Last => None,
        Target::Each => Some(Value::Address {
            object: fold.first,
            offset,
            target: Target::Each,
        }),
    }
}

/// The address of the last node, where nodes are linked both ways.
fn of_last(fold: &Fold, offset: i64) -> Option<Value>
    ensures { result ≡ of_second fold.now offset Last }
{
    if fold.twofold {
        Some(Value::Address {
            object: fold.first,
            offset,
            target: Target::Last,
        })
    } else {
        None
    }
}

/// What an address of the second neighbour becomes.
fn of_second(fold: &Fold, offset: i64, target: Target) -> Option<Value>
    ensures { result ≡ of_second fold.now offset target }
{
    match target {
        Target::Region => of_last(fold, offset),
        Target::First => None,
        Target::Last => of_last(fold, offset),
        Target::Each => Some(Value::Address {
            object: fold.first,
            offset,
            target: Target::Each,
        }),
    }
}

/// What a value becomes.
fn folded_value(fold: &Fold, value: Value) -> Option<Value>
    ensures { result ≡ folded_value fold.now value }
{
    match value {
        Value::Address {
            object,
            offset,
            target,
        } => {
            if object == fold.first {
                of_first(fold, offset, target)
            } else {
                if object == fold.second {
                    of_second(fold, offset, target)
                } else {
                    Some(value)
                }
            }
        }
        _ => Some(value),
    }
}

/// Puts what values become behind others.
fn push_values(
    fold: &Fold,
    values: &[KeyedValue],
    after: &mut List<KeyedValue>,
) -> Result<(), NoMemory>
    ensures { OnOk result (after.new ≡ after.old ++ folded_values fold.now values.now) }
{
    let mut left = values;
    while let [first, rest @ ..] = left {
        match folded_value(fold, first.value) {
            None => {}
            Some(value) => after.push(KeyedValue {
                key: first.key,
                value,
            })?,
        }
        left = rest;
    }
    Ok(())
}

/// Puts another object at a key, which is the place of its entry.
fn put_at(objects: &mut Vec<KeyedObject>, key: u32, object: Object)
    requires ascending { AllPairs (λ one other. one.key < other.key) objects.old.items }
    requires within { key < length objects.old.items }
    requires key { option_map (λ entry. entry.key) (slice_get objects.old.items key) ≡ Some key }
    ensures { objects.new.items ≡ map (replaced key object) objects.old.items }
{
    objects[key as usize].object = object;
}

/// Puts objects into an empty list, but for the one with a key.
fn keep_others(
    key: u32,
    objects: Vec<KeyedObject>,
    kept: &mut List<KeyedObject>,
) -> Result<(), NoMemory>
    requires empty { kept.old ≡ [] }
    ensures { OnOk result (kept.new ≡ filter (λ entry. not (nat_eq entry.key key)) objects.items) }
{
    for entry in objects {
        if entry.key != key {
            kept.push(entry)?;
        }
    }
    Ok(())
}

/// Whether so many values more, and one, have keys.
fn have_keys(count: u32, own: usize) -> bool
    ensures { result ≡ nat_le (count + own + 2) 4294967295 }
{
    let room = u32::MAX - count;
    if room < 2 {
        return false;
    }
    own <= (room - 2) as usize
}

/// Puts 0, and the own addresses of the nodes, behind values.
fn push_more(
    graph: &Graph,
    fold: &Fold,
    behind: &[HasValue],
    edges: &[HasValue],
    after: &mut List<KeyedValue>,
) -> Result<(), NoMemory>
    requires few { length graph.now.values + 1 + length edges.now < 4294967296 }
    ensures { OnOk result (after.new ≡ after.old ++ values_from (length graph.now.values) (Const 0 8 ∷ own_addresses fold.now.first (standing graph.now fold.now behind.now) edges.now)) }
{
    let null = graph.value_count();
    after.push(KeyedValue {
        key: null,
        value: Value::Const { number: 0, size: 8 },
    })?;
    push_own(graph, fold, behind, null + 1, edges, after)
}

/// Puts the values of the folded graph behind others.
fn push_folded(
    graph: &Graph,
    fold: &Fold,
    behind: &[HasValue],
    edges: &[HasValue],
    values: &[KeyedValue],
    after: &mut List<KeyedValue>,
) -> Result<(), NoMemory>
    requires few { length graph.now.values + 1 + length edges.now < 4294967296 }
    ensures { OnOk result (after.new ≡ after.old ++ (folded_values fold.now values.now ++ values_from (length graph.now.values) (Const 0 8 ∷ own_addresses fold.now.first (standing graph.now fold.now behind.now) edges.now))) }
{
    match push_values(fold, values, after) {
        Err(error) => Err(error),
        Ok(()) => push_more(graph, fold, behind, edges, after),
    }
}

/// The segment in place of two neighbours.
fn join(
    alloc: Global,
    graph: &Graph,
    fold: &Fold,
    one: &Object,
    other: &Object,
    behind: &[HasValue],
    edges: &[HasValue],
    next_value: u32,
    prev_value: u32,
) -> Result<Object, NoMemory>
    requires first { object_at graph.now.objects fold.now.first ≡ Some one.now }
    requires second { object_at graph.now.objects fold.now.second ≡ Some other.now }
    requires neighbours { are_neighbours graph.now fold.now one.now other.now ≡ true }
    requires behind { behind.now ≡ others fold.now (node_of other.now).edges }
    requires edges { edges.now ≡ others fold.now (node_of one.now).edges }
    requires few { length graph.now.values + 1 + length edges.now < 4294967296 }
    ensures { IfOk result (λ object. object ≡ joined_object graph.now fold.now one.now other.now next_value prev_value) }
{
    match joined_node(alloc, graph, fold, one, other, behind, edges) {
        Err(error) => Err(error),
        Ok(node) => segment(alloc, fold, one, other, next_value, prev_value, node),
    }
}

/// Puts objects into an empty list, another one at a key, and none at another key.
#[tactic(auto, using(crate::proofs::Entries::key_within, crate::proofs::Entries::key_there))]
fn put_objects(
    graph: &Graph,
    fold: &Fold,
    one: &Object,
    objects: List<KeyedObject>,
    object: Object,
    kept: &mut List<KeyedObject>,
) -> Result<(), NoMemory>
    requires objects { objects ≡ graph.now.objects }
    requires graph { IsGraph graph.now }
    requires first { object_at graph.now.objects fold.now.first ≡ Some one.now }
    requires kept { kept.old ≡ [] }
    ensures { OnOk result (kept.new ≡ filter (λ entry. not (nat_eq entry.key fold.now.second)) (map (replaced fold.now.first object) graph.now.objects)) }
{
    let mut objects = objects.into_vec();
    put_at(&mut objects, fold.first, object);
    keep_others(fold.second, objects, kept)
}

/// Puts objects and values of the folded graph into empty lists.
fn fill(
    alloc: Global,
    graph: &Graph,
    fold: &Fold,
    one: &Object,
    other: &Object,
    behind: &[HasValue],
    edges: &[HasValue],
    next_value: u32,
    prev_value: u32,
    objects: List<KeyedObject>,
    values: &[KeyedValue],
    kept: &mut List<KeyedObject>,
    after: &mut List<KeyedValue>,
) -> Result<(), NoMemory>
    requires objects { objects ≡ graph.now.objects }
    requires values { values.now ≡ graph.now.values }
    requires graph { IsGraph graph.now }
    requires first { object_at graph.now.objects fold.now.first ≡ Some one.now }
    requires second { object_at graph.now.objects fold.now.second ≡ Some other.now }
    requires neighbours { are_neighbours graph.now fold.now one.now other.now ≡ true }
    requires behind { behind.now ≡ others fold.now (node_of other.now).edges }
    requires edges { edges.now ≡ others fold.now (node_of one.now).edges }
    requires few { length graph.now.values + 1 + length edges.now < 4294967296 }
    requires kept { kept.old ≡ [] }
    requires after { after.old ≡ [] }
    ensures objects { OnOk result (kept.new ≡ (folded_by graph.now fold.now one.now other.now next_value prev_value).objects) }
    ensures values { OnOk result (after.new ≡ (folded_by graph.now fold.now one.now other.now next_value prev_value).values) }
{
    match join(
        alloc, graph, fold, one, other, behind, edges, next_value, prev_value,
    ) {
        Err(error) => Err(error),
        Ok(object) => match put_objects(graph, fold, one, objects, object, kept) {
            Err(error) => Err(error),
            Ok(()) => push_folded(graph, fold, behind, edges, values, after),
        },
    }
}

/// The parts of the folded graph.
fn folded_with(
    alloc: Global,
    graph: &Graph,
    fold: &Fold,
    one: &Object,
    other: &Object,
    behind: &[HasValue],
    edges: &[HasValue],
    next_value: u32,
    prev_value: u32,
    parts: Parts,
) -> Result<Parts, NoMemory>
    requires same { parts ≡ graph.now }
    requires graph { IsGraph graph.now }
    requires first { object_at graph.now.objects fold.now.first ≡ Some one.now }
    requires second { object_at graph.now.objects fold.now.second ≡ Some other.now }
    requires neighbours { are_neighbours graph.now fold.now one.now other.now ≡ true }
    requires behind { behind.now ≡ others fold.now (node_of other.now).edges }
    requires edges { edges.now ≡ others fold.now (node_of one.now).edges }
    requires few { length graph.now.values + 1 + length edges.now < 4294967296 }
    ensures { IfOk result (λ after. after ≡ folded_by graph.now fold.now one.now other.now next_value prev_value) }
{
    let Parts {
        objects,
        values,
        variables,
        registers,
        ports,
        unequal,
    } = parts;
    let mut kept = List::new(alloc);
    let mut after = List::new(alloc);
    match fill(
        alloc,
        graph,
        fold,
        one,
        other,
        behind,
        edges,
        next_value,
        prev_value,
        objects,
        values.as_slice(),
        &mut kept,
        &mut after,
    ) {
        Ok(()) => Ok(Parts {
            objects: kept,
            values: after,
            variables,
            registers,
            ports,
            unequal,
        }),
        Err(error) => {
            drop(kept);
            Err(error)
        }
    }
}

/// The edges of an object that are no links.
fn others_of(alloc: Global, fold: &Fold, object: &Object) -> Result<List<HasValue>, NoMemory>
    ensures { IfOk result (λ edges. edges ≡ others fold.now (node_of object.now).edges) }
{
    let mut edges = List::new(alloc);
    push_others(fold, edges_of(object), &mut edges)?;
    Ok(edges)
}

/// The parts of the folded graph, where all its values have keys.
fn folded_by(
    alloc: Global,
    graph: &Graph,
    fold: &Fold,
    one: &Object,
    other: &Object,
    next_value: u32,
    prev_value: u32,
    parts: Parts,
) -> Result<Parts, NoMemory>
    requires same { parts ≡ graph.now }
    requires graph { IsGraph graph.now }
    requires first { object_at graph.now.objects fold.now.first ≡ Some one.now }
    requires second { object_at graph.now.objects fold.now.second ≡ Some other.now }
    requires neighbours { are_neighbours graph.now fold.now one.now other.now ≡ true }
    ensures { IfOk result (λ after. after ≡ folded_by graph.now fold.now one.now other.now next_value prev_value) }
{
    match others_of(alloc, fold, one) {
        Err(error) => {
            drop(parts);
            Err(error)
        }
        Ok(edges) => match others_of(alloc, fold, other) {
            Err(error) => {
                drop(parts);
                Err(error)
            }
            Ok(behind) => {
                if have_keys(graph.value_count(), edges.len()) {
                    folded_with(
                        alloc,
                        graph,
                        fold,
                        one,
                        other,
                        behind.as_slice(),
                        edges.as_slice(),
                        next_value,
                        prev_value,
                        parts,
                    )
                } else {
                    drop(parts);
                    Err(NoMemory)
                }
            }
        },
    }
}

fn folded_links(
    alloc: Global,
    graph: &Graph,
    fold: &Fold,
    one: &Object,
    other: &Object,
    parts: Parts,
) -> Result<Parts, NoMemory>
    requires same { parts ≡ graph.now }
    requires graph { IsGraph graph.now }
    requires first { object_at graph.now.objects fold.now.first ≡ Some one.now }
    requires second { object_at graph.now.objects fold.now.second ≡ Some other.now }
    requires neighbours { are_neighbours graph.now fold.now one.now other.now ≡ true }
    ensures { IfOk result (λ after. after ≡ folded_links graph.now fold.now one.now other.now (onward (length graph.now.values) fold.now other.now) (backward (length graph.now.values) fold.now one.now)) }
{
    let null = graph.value_count();
    match onward(null, fold, other) {
        None => Ok(parts),
        Some(next_value) => match backward(null, fold, one) {
            None => Ok(parts),
            Some(prev_value) => folded_by(
                alloc, graph, fold, one, other, next_value, prev_value, parts,
            ),
        },
    }
}

/// The parts of a graph in which two neighbours are one segment. The offsets of the graph's addresses are numbers of 64 bits.
#[tactic(auto, using(crate::proofs::Rooms::neighbours_there))]
pub(crate) fn folded(alloc: Global, graph: &Graph, fold: &Fold) -> Result<Parts, NoMemory>
    requires { has_neighbours graph.now fold.now ≡ true }
    ensures ok { IfOk result (λ after. after ≡ folded fold.now graph.now) }
    ensures graph { IsGraph graph.now }
{
    match graph.parts(alloc) {
        Err(error) => Err(error),
        Ok(parts) => match graph.object(fold.first) {
            None => Ok(parts),
            Some(one) => match graph.object(fold.second) {
                None => Ok(parts),
                Some(other) => folded_links(alloc, graph, fold, one, other, parts),
            },
        },
    }
}
