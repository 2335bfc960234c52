//! A graph in which the first node of a segment is a region of its own.
ghost use Rattle.std.specs.Prelude.{◌≡◌, ◌≤◌, ◌<◌, ◌+◌, ◌++◌, [], ◌∷◌, true, map, length, nat_le, Some, pos, is_some, OnOk, IfOk};
ghost use Rattle.std.specs.List.{filter};
ghost use Rattle.graph.specs.declared.object.Links.{Links};
ghost use Rattle.graph.specs.declared.value.Target.TheVariants.{First};
ghost use Rattle.graph.specs.declared.value.Value.TheVariants.{Address};
ghost use Rattle.graph.specs.Maps.{object_at};
ghost use Rattle.graph.specs.Nodes.{links_in, node_of};
ghost use Rattle.graph.specs.Renaming.{values_from};
ghost use Rattle.graph.specs.Whole.{IsGraph};
ghost use Rattle.materialise.specs.SplitFirst.{own_values, at_region, first_target, first_value, link_value, with_link_if, node_region, split_first_by, split_first};
ghost use Rattle.materialise.specs.WithOne.{HaveOffsets};
ghost use Rattle.materialise.specs.Splitting.{rest_entry, first_entry, alone_node, linked_node, first_node_of, ends_of_split};

use crate::links::with_link;
use crate::offsets::parts_of;
use crate::own_addresses::{bare_node, push_own, push_turned};
use crate::rest::push_rest;
use cbase::{List, NoMemory};
use graph::{
    Graph, HasValue, KeyedObject, KeyedValue, Links, Node, Object, Parts, Shape, Target, Value,
};
use std::alloc::Global;

/// An address of the segment with a key, where its first node is a region.
fn first_target(region: u32, key: u32, target: Target, offset: i64) -> Value
    ensures { result ≡ first_target region key target offset }
{
    match target {
        Target::Region => Value::Address {
            object: key,
            offset,
            target: Target::Region,
        },
        Target::First => Value::Address {
            object: region,
            offset,
            target: Target::Region,
        },
        Target::Last => Value::Address {
            object: key,
            offset,
            target: Target::Last,
        },
        Target::Each => Value::Address {
            object: key,
            offset,
            target: Target::Each,
        },
    }
}

/// A value where the first node of the segment with a key is a region.
fn first_value(region: u32, key: u32, value: Value) -> Value
    ensures { result ≡ first_value region key value }
{
    match value {
        Value::Address {
            object,
            offset,
            target,
        } => {
            if object == key {
                first_target(region, key, target, offset)
            } else {
                value
            }
        }
        _ => value,
    }
}

/// Puts what values become behind others.
fn push_first_values(
    region: u32,
    key: u32,
    values: &[KeyedValue],
    after: &mut List<KeyedValue>,
) -> Result<(), NoMemory>
    ensures { OnOk result (after.new ≡ after.old ++ map (first_entry region key) values.now) }
{
    let mut left = values;
    while let [first, rest @ ..] = left {
        after.push(KeyedValue {
            key: first.key,
            value: first_value(region, key, first.value),
        })?;
        left = rest;
    }
    Ok(())
}

/// Puts the addresses to which the links between the region and the rest lead, with keys from one on, behind values.
fn push_ends(
    region: u32,
    key: u32,
    from: u32,
    links: &Links,
    values: &mut List<KeyedValue>,
) -> Result<(), NoMemory>
    requires few { from + 1 < 4294967296 }
    ensures { OnOk result (values.new ≡ values.old ++ values_from from (ends_of_split region key links.now)) }
{
    values.push(KeyedValue {
        key: from,
        value: Value::Address {
            object: key,
            offset: links.head as i64,
            target: Target::First,
        },
    })?;
    if links.twofold {
        values.push(KeyedValue {
            key: from + 1,
            value: Value::Address {
                object: region,
                offset: links.back as i64,
                target: Target::Region,
            },
        })?;
    }
    Ok(())
}

/// Puts the values of the graph that is split into an empty list.
#[tactic(auto, using(crate::proofs::SplitSteps::values_whole))]
fn push_values(
    region: u32,
    key: u32,
    links: &Links,
    own: &[KeyedValue],
    values: &[KeyedValue],
    after: &mut List<KeyedValue>,
) -> Result<(), NoMemory>
    requires empty { after.old ≡ [] }
    requires few { length values.now + length own.now + 1 < 4294967296 }
    ensures { OnOk result (after.new ≡ map (first_entry region key) values.now ++ values_from (length values.now) (map (λ entry. at_region region entry.value) own.now ++ ends_of_split region key links.now)) }
{
    push_first_values(region, key, values, after)?;
    push_turned(region, values.len() as u32, own, after)?;
    push_ends(
        region,
        key,
        values.len() as u32 + own.len() as u32,
        links,
        after,
    )
}

/// The value with a key, as a link holds it.
pub(crate) fn link_value(graph: &Graph, link: u32) -> Value
    ensures { result ≡ link_value graph.now link }
{
    match graph.value(link) {
        None => Value::Any,
        Some(value) => *value,
    }
}

/// What is said of bytes, with the link to the rest.
fn linked_node(
    alloc: Global,
    key: u32,
    owned: u32,
    links: &Links,
    node: Node,
) -> Result<Node, NoMemory>
    requires next { links.now.next + 8 ≤ length node.plane }
    ensures { IfOk result (λ after. after ≡ linked_node key owned links.now node) }
{
    with_link(
        alloc,
        Value::Address {
            object: key,
            offset: links.head as i64,
            target: Target::First,
        },
        HasValue {
            at: links.next,
            size: 8,
            value: owned,
        },
        node,
    )
}

/// And with the link back, where nodes have one.
fn with_back(alloc: Global, before: Value, links: &Links, node: Node) -> Result<Node, NoMemory>
    requires back { links.now.twofold ≡ true → links.now.prev + 8 ≤ length node.plane }
    ensures { IfOk result (λ after. after ≡ with_link_if links.now.twofold before (record { at = links.now.prev; size = 8; value = links.now.prev_value }) node) }
{
    if links.twofold {
        with_link(
            alloc,
            before,
            HasValue {
                at: links.prev,
                size: 8,
                value: links.prev_value,
            },
            node,
        )
    } else {
        Ok(node)
    }
}

/// What is said of the bytes of the new region.
#[tactic(auto, using(crate::proofs::SplitCode::linked_room))]
fn new_node(
    alloc: Global,
    key: u32,
    before: Value,
    owned: u32,
    links: &Links,
    node: Node,
) -> Result<Node, NoMemory>
    requires next { links.now.next + 8 ≤ length node.plane }
    requires back { links.now.twofold ≡ true → links.now.prev + 8 ≤ length node.plane }
    ensures { IfOk result (λ after. after ≡ first_node_of key owned links.now before node) }
{
    match linked_node(alloc, key, owned, links, node) {
        Err(error) => Err(error),
        Ok(node) => with_back(alloc, before, links, node),
    }
}

/// The new region.
#[tactic(auto, using(crate::proofs::SplitCode::next_room, crate::proofs::SplitCode::back_room))]
fn new_region(
    alloc: Global,
    graph: &Graph,
    key: u32,
    region: u32,
    own: &[KeyedValue],
    from: u32,
    object: &Object,
    links: &Links,
) -> Result<Object, NoMemory>
    requires graph { IsGraph graph.now }
    requires object { object_at graph.now.objects key ≡ Some object.now }
    requires links { links_in object.now.shape ≡ Some links.now }
    requires few { from + length own.now < 4294967296 }
    ensures { IfOk result (λ new. new ≡ node_region object.now (first_node_of key (from + length own.now) links.now (first_value region key (link_value graph.now links.now.prev_value)) (alone_node own.now from (node_of object.now)))) }
{
    match bare_node(alloc, own, from, object) {
        Err(error) => Err(error),
        Ok(node) => {
            let before = first_value(region, key, link_value(graph, links.prev_value));
            match new_node(alloc, key, before, from + own.len() as u32, links, node) {
                Err(error) => Err(error),
                Ok(Node { edges, plane }) => Ok(Object {
                    size: object.size,
                    kind: object.kind,
                    live: object.live,
                    shape: Shape::Region,
                    edges,
                    plane,
                }),
            }
        }
    }
}

/// Puts the objects of the graph that is split into an empty list.
fn push_objects(
    alloc: Global,
    graph: &Graph,
    key: u32,
    own: &[KeyedValue],
    object: &Object,
    links: &Links,
    objects: List<KeyedObject>,
    kept: &mut List<KeyedObject>,
) -> Result<(), NoMemory>
    requires same { objects ≡ graph.now.objects }
    requires graph { IsGraph graph.now }
    requires object { object_at graph.now.objects key ≡ Some object.now }
    requires links { links_in object.now.shape ≡ Some links.now }
    requires own { own.now ≡ own_values key graph.now }
    requires few { length graph.now.values + length own.now + 1 < 4294967296 }
    requires empty { kept.old ≡ [] }
    ensures { OnOk result (kept.new ≡ (split_first_by graph.now key object.now links.now).objects) }
{
    let region = graph.object_count();
    let from = graph.value_count();
    match new_region(alloc, graph, key, region, own, from, object, links) {
        Err(error) => Err(error),
        Ok(new) => match push_rest(key, from + own.len() as u32 + 1, objects, kept) {
            Err(error) => {
                drop(new);
                Err(error)
            }
            Ok(()) => kept.push(KeyedObject {
                key: region,
                object: new,
            }),
        },
    }
}

/// Whether so many values more, and two, have keys.
pub(crate) fn have_keys(count: u32, own: usize) -> bool
    ensures { result ≡ nat_le (count + own + 2) 4294967295 }
{
    let room = u32::MAX - count;
    if room < 2 {
        return false;
    }
    own <= (room - 2) as usize
}

/// Puts the objects and the values of the graph that is split into empty lists.
fn fill(
    alloc: Global,
    graph: &Graph,
    key: u32,
    object: &Object,
    links: &Links,
    objects: List<KeyedObject>,
    values: &[KeyedValue],
    kept: &mut List<KeyedObject>,
    after: &mut List<KeyedValue>,
) -> Result<(), NoMemory>
    requires objects { objects ≡ graph.now.objects }
    requires values { values.now ≡ graph.now.values }
    requires graph { IsGraph graph.now }
    requires object { object_at graph.now.objects key ≡ Some object.now }
    requires links { links_in object.now.shape ≡ Some links.now }
    requires kept { kept.old ≡ [] }
    requires after { after.old ≡ [] }
    ensures objects { OnOk result (kept.new ≡ (split_first_by graph.now key object.now links.now).objects) }
    ensures values { OnOk result (after.new ≡ (split_first_by graph.now key object.now links.now).values) }
{
    let mut own = List::new(alloc);
    push_own(key, values, &mut own)?;
    if !have_keys(graph.value_count(), own.len()) {
        return Err(NoMemory);
    }
    push_objects(
        alloc,
        graph,
        key,
        own.as_slice(),
        object,
        links,
        objects,
        kept,
    )?;
    push_values(
        graph.object_count(),
        key,
        links,
        own.as_slice(),
        values,
        after,
    )
}

/// The parts of the graph in which the first node of a segment is a region.
fn split(
    alloc: Global,
    graph: &Graph,
    key: u32,
    object: &Object,
    links: &Links,
    parts: Parts,
) -> Result<Parts, NoMemory>
    requires same { parts ≡ graph.now }
    requires graph { IsGraph graph.now }
    requires object { object_at graph.now.objects key ≡ Some object.now }
    requires links { links_in object.now.shape ≡ Some links.now }
    ensures { IfOk result (λ after. after ≡ split_first_by graph.now key object.now links.now) }
{
    let Parts {
        objects,
        values,
        variables,
        registers,
        ports,
        unequal,
    } = parts;
    let mut kept = List::new(alloc);
    let mut after = List::new(alloc);
    match fill(
        alloc,
        graph,
        key,
        object,
        links,
        objects,
        values.as_slice(),
        &mut kept,
        &mut after,
    ) {
        Ok(()) => Ok(Parts {
            objects: kept,
            values: after,
            variables,
            registers,
            ports,
            unequal,
        }),
        Err(error) => {
            drop(kept);
            Err(error)
        }
    }
}

/// The parts of the graph in which the first node of the segment with a key is a region. The offsets of the graph's addresses are numbers of 64 bits.
pub(crate) fn split_first(alloc: Global, graph: &Graph, key: u32) -> Result<Parts, NoMemory>
    ensures ok { IfOk result (λ after. after ≡ split_first key graph.now) }
    ensures graph { IsGraph graph.now }
    ensures offsets { OnOk result (HaveOffsets graph.now.values) }
{
    match parts_of(alloc, graph) {
        Err(error) => Err(error),
        Ok(parts) => match graph.object(key) {
            None => Ok(parts),
            Some(object) => match object.shape.links() {
                None => Ok(parts),
                Some(links) => split(alloc, graph, key, object, &links, parts),
            },
        },
    }
}
